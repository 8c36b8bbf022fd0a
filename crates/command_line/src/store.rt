//! The store file of a program.

ghost use Rattle.std.specs.Prelude.{◌≤◌, IfSome};
ghost use Rattle.tbl_kinds.specs.Places.{bank_size};

use crate::words::CommandLine;
use std::fs::{File, Files};
use tbl_adapters::StoreFile;

/// How many bytes preserved memory has, as blocks of the Critical Data Store are laid out in it.
const BANK_SIZE: u32 = 262_144;

/// The name of the store file if none is given: it is in the working folder.
const STORE_NAME: &str = "cds.store";

/// Opens the store file that the command line names. If that fails, standard error says why, after the program's name.
pub fn open_store<R: Files<File = File> + Eprint>(
    rt: &R,
    program: &str,
    line: &CommandLine,
) -> Option<StoreFile>
    ensures { IfSome result (λ store. bank_size ≤ store.size) }
{
    let name = match &line.store {
        Some(name) => name.as_str(),
        None => STORE_NAME,
    };
    match StoreFile::open(rt, name, BANK_SIZE, line.syncing) {
        Ok(store) => Some(store),
        Err(fault) => {
            let _ = eprintln!(rt; "{program}: {name} {fault}");
            None
        }
    }
}

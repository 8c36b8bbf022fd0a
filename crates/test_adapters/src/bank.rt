//! Calls of the store file.

use crate::words::{Words, dotted};
use std::alloc::AllocError;
use tbl_adapters::{OpenFault, StoreFile, Syncing};
use tbl_outside::{Bank, Written};

/// How many bytes a read gives at most.
const MOST: usize = 16;

/// The name of the store file.
const NAME: &str = "cds.store";

/// What an opening answers.
fn told(rt: &HostRuntime, opened: &Result<StoreFile, OpenFault>) -> Result<String, AllocError> {
    match opened {
        Ok(_) => "opened".to_string(rt.alloc()),
        Err(fault) => format!(in rt.alloc(); "{NAME} {fault}"),
    }
}

/// `open SIZE`, `open-durable SIZE`
fn open(
    rt: &HostRuntime,
    store: &mut Option<StoreFile>,
    size: u32,
    syncing: Syncing,
) -> Result<String, AllocError> {
    // The one that was opened before has a lock.
    *store = None;
    let opened = StoreFile::open(rt, NAME, size, syncing);
    let answer = told(rt, &opened);
    *store = opened.ok();
    answer
}

/// `read AT N`
fn read_at(
    rt: &HostRuntime,
    bank: &mut StoreFile,
    words: &mut Words,
) -> Result<String, AllocError> {
    let mut bytes = [b'?'; MOST];
    let at = words.number();
    let len = (words.number() as usize).min(MOST);
    let piece = &mut bytes[..len];
    if (bank.size() as usize) < at as usize + len {
        return "outside".to_string(rt.alloc());
    }
    match bank.read_at(at, piece) {
        Ok(()) => dotted(piece).to_string(rt.alloc()),
        Err(_) => "failed".to_string(rt.alloc()),
    }
}

/// `write AT BYTES`
fn write_at(
    rt: &HostRuntime,
    bank: &mut StoreFile,
    words: &mut Words,
) -> Result<String, AllocError> {
    let at = words.number();
    let bytes = words.next().as_bytes();
    if MOST < bytes.len() || (bank.size() as usize) < at as usize + bytes.len() {
        return "outside".to_string(rt.alloc());
    }
    let told = match bank.write_at(at, bytes) {
        Written::Done => "done",
        Written::Failed => "failed",
        Written::Stopped => "stopped",
    };
    told.to_string(rt.alloc())
}

/// `open SIZE` opens the store file, `open-durable SIZE` one whose writes are synced; the other calls are of the one that was opened
/// last: `read AT N`, `write AT BYTES`, `faults`, or `close`. `open-beside SIZE` opens it once more, and lets go of it at once.
pub(crate) fn call(
    rt: &HostRuntime,
    store: &mut Option<StoreFile>,
    call: &str,
    words: &mut Words,
) -> Result<String, AllocError> {
    match call {
        "open" => return open(rt, store, words.number(), Syncing::Later),
        "open-durable" => return open(rt, store, words.number(), Syncing::EachWrite),
        "open-beside" => {
            let opened = StoreFile::open(rt, NAME, words.number(), Syncing::Later);
            return told(rt, &opened);
        }
        _ => {}
    }
    let Some(bank) = store else {
        return "not open".to_string(rt.alloc());
    };
    match call {
        "read" => read_at(rt, bank, words),
        "write" => write_at(rt, bank, words),
        "faults" => bank.faults().to_string(rt.alloc()),
        _ => {
            *store = None;
            "closed".to_string(rt.alloc())
        }
    }
}

//! Tries a table of packets, files, records, entries, names and files of the drawer, and says which came otherwise than it
//! states.
#![tactic(auto)]

mod codecs;
mod drawer;
mod drills;
mod files;
mod line;
mod names;
mod packets;
mod records;
mod telemetry;

use codecs::Codecs;
use std::process::ExitCode;
use test_tables::play_table;

fn main(rt: HostRuntime) -> ExitCode {
    let alloc = rt.alloc();
    let played = match Codecs::make(alloc) {
        Ok(mut codecs) => play_table(&rt, &mut codecs),
        Err(_) => return ExitCode::from(1),
    };
    match played {
        Ok(true) => ExitCode::from(0),
        _ => ExitCode::from(1),
    }
}

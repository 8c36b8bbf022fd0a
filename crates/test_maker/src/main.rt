//! Tries a table of descriptions, shapes and table files, and says which came otherwise than it states.
#![tactic(auto)]

mod maker;

use maker::Maker;
use std::process::ExitCode;
use test_tables::play_table;

fn main(rt: HostRuntime) -> ExitCode {
    let mut maker = Maker::make(rt.alloc());
    match play_table(&rt, &mut maker) {
        Ok(true) => ExitCode::from(0),
        _ => ExitCode::from(1),
    }
}

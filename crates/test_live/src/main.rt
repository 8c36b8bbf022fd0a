//! Lets threads call services as a table states it, and says which rows came otherwise.
#![tactic(auto)]

mod agreeing;
mod callers;
mod first_calls;
mod lasting;
mod pinned;
mod reads;
mod requests;
mod rows;
mod services;

use rows::Calls;
use std::process::ExitCode;
use test_tables::play_rows;

fn main(rt: HostRuntime) -> ExitCode {
    match play_rows(&rt, &mut Calls) {
        Ok(true) => ExitCode::from(0),
        _ => ExitCode::from(1),
    }
}

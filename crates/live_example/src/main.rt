//! A flight program in small: a guidance and a thermal application read limits from one table, each in a thread of its own, while
//! the ground loads new limits and activates them.
#![tactic(auto)]

mod applications;
mod flight;
mod ground;
mod report;
mod shared;

use flight::fly;
use std::process::ExitCode;

fn main(rt: HostRuntime) -> ExitCode {
    match fly(&rt) {
        Ok(()) => ExitCode::from(0),
        Err(_) => ExitCode::from(1),
    }
}

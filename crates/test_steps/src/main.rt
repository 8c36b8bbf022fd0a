//! Plays the steps of a table on cores, and says which of them gave other entries than it states.
#![tactic(auto)]

mod notes;
mod stepping;
mod steps;

use std::process::ExitCode;
use steps::Steps;
use test_tables::play_rows;

fn main(rt: HostRuntime) -> ExitCode {
    let mut steps = Steps::make();
    let played = play_rows(&rt, &mut steps);
    steps.end();
    match played {
        Ok(true) => ExitCode::from(0),
        _ => ExitCode::from(1),
    }
}

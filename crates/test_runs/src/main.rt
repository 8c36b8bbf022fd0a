//! Plays the sessions of a table, also over banks whose writes break off and whose reads fail and between streams that are cut,
//! and says which of them ended otherwise than it states.
#![tactic(auto)]

mod banks;
mod crews;
mod cuts;
mod ending;
mod feeding;
mod meeting;
mod runs;
mod second_runs;
mod sessions;
mod transcripts;
mod turns;

use runs::Runs;
use std::process::ExitCode;
use test_tables::play_rows;

fn main(rt: HostRuntime) -> ExitCode {
    match play_rows(&rt, &mut Runs) {
        Ok(true) => ExitCode::from(0),
        _ => ExitCode::from(1),
    }
}

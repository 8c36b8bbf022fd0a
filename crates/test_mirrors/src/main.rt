//! Plays scripts, each of calls of two banks in memory as one or of a session over them, and tells what came of them: a
//! program for tests alone.
#![tactic(auto)]

mod calls;
mod session;
mod setup;
mod words;

use std::io::{self, Read};
use std::process::ExitCode;

/// Plays a script: its first line says of what kind it is and names it.
fn play<R: Print + AllocGlobal>(rt: &R, script: &str) -> io::Result<()> {
    let (first, lines) = script.split_once('\n').unwrap_or((script, ""));
    println!(rt; "{first}")?;
    if first.starts_with("session") {
        session::play(rt, lines)
    } else {
        calls::play(rt, lines)
    }
}

fn play_all<R: Print + AllocGlobal>(rt: &R, scripts: &str) -> io::Result<()> {
    for script in scripts.split("\n\n") {
        play(rt, script)?;
    }
    Ok(())
}

fn run<R: Input + Print + AllocGlobal>(rt: &R) -> io::Result<()> {
    let scripts = io::read_to_string(rt.alloc(), rt.reader())?;
    play_all(rt, &scripts)
}

fn main(rt: HostRuntime) -> ExitCode {
    match run(&rt) {
        Ok(()) => ExitCode::from(0),
        Err(_) => ExitCode::from(1),
    }
}

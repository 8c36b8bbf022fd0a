//! Plays scripts, each of calls of the store over a bank in memory or of a source, sink or bank in memory, and tells what came of
//! them: a program for tests alone.
#![tactic(auto)]

mod banks;
mod playing;
mod served;
mod setup;
mod streams;
mod words;

use std::io::{self, Read};
use std::process::ExitCode;
use words::Words;

/// Plays a script: its first line makes an object and each further one is a call of it, or it is one of the store.
fn play<R: Print + AllocGlobal>(rt: &R, script: &str) -> io::Result<()> {
    let (first, calls) = script.split_once('\n').unwrap_or((script, ""));
    println!(rt; "{first}")?;
    let mut words = Words::of(first);
    match words.next() {
        "source" => streams::source(rt, &mut words, calls),
        "calm-source" => streams::calm_source(rt, &mut words, calls),
        "sink" => streams::sink(rt, &mut words, calls),
        "calm-sink" => streams::calm_sink(rt, calls),
        "bank" => banks::bank(rt, &mut words, calls),
        "calm-bank" => banks::calm_bank(rt, &mut words, calls),
        _ => playing::play(rt, calls),
    }
}

fn play_all<R: Print + AllocGlobal>(rt: &R, scripts: &str) -> io::Result<()> {
    for script in scripts.split("\n\n") {
        play(rt, script)?;
    }
    Ok(())
}

fn run<R: Input + Print + AllocGlobal>(rt: &R) -> io::Result<()> {
    let scripts = io::read_to_string(rt.alloc(), rt.reader())?;
    play_all(rt, &scripts)
}

fn main(rt: HostRuntime) -> ExitCode {
    match run(&rt) {
        Ok(()) => ExitCode::from(0),
        Err(_) => ExitCode::from(1),
    }
}

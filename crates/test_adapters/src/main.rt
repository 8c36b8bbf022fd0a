//! Makes calls of the adapters over the system, a line each, and writes what came: a program for tests alone. It reads its
//! lines through the adapter over standard input and writes through the one over standard output.
#![tactic(auto)]

mod bank;
mod file;
mod words;

use std::alloc::{AllocError, Global};
use std::io;
use std::process::ExitCode;
use tbl_adapters::{StandardInput, StandardOutput, StoreFile};
use tbl_outside::{Sink, Source};
use words::Words;

/// The whole input, or none where reading fails.
fn read_all(alloc: Global, input: &mut StandardInput) -> io::Result<Option<Vec<u8>>> {
    let mut bytes = Vec::new(alloc);
    let mut piece = [0; 64];
    for _ in 0..u64::MAX {
        match input.read(&mut piece) {
            Ok(0) => return Ok(Some(bytes)),
            Ok(count) => bytes.extend_from_slice(&piece[..count])?,
            Err(_) => return Ok(None),
        }
    }
    Ok(None)
}

/// What a line is answered: a call of the store file, or one that changes the file beside it.
fn answer(
    rt: &HostRuntime,
    store: &mut Option<StoreFile>,
    line: &str,
) -> Result<String, AllocError> {
    let mut words = Words::of(line);
    let call = words.next();
    match call {
        "open" | "open-durable" | "open-beside" | "read" | "write" | "faults" | "close" =>
            bank::call(rt, store, call, &mut words),
        _ => file::call(rt, call, &mut words),
    }
}

/// Plays a line, and writes it with its answer. It says whether it was written.
fn play(
    rt: &HostRuntime,
    store: &mut Option<StoreFile>,
    output: &mut StandardOutput,
    line: &str,
) -> io::Result<bool> {
    if line.is_empty() {
        return Ok(true);
    }
    let answer = answer(rt, store, line)?;
    let told = format!(in rt.alloc(); "{line} -> {}\n", answer.as_str())?;
    Ok(output.write(told.as_bytes()).is_ok())
}

/// Plays all lines, and says whether they could be read and written.
fn run(rt: &HostRuntime) -> io::Result<bool> {
    let mut output = StandardOutput::of(rt.stdout());
    let Some(script) = read_all(rt.alloc(), &mut StandardInput::of(rt.stdin()))? else {
        return Ok(false);
    };
    let script = std::str::from_utf8(&script).unwrap_or("the script is no text");
    let mut store = None;
    for line in script.lines() {
        if !play(rt, &mut store, &mut output, line)? {
            return Ok(false);
        }
    }
    Ok(true)
}

fn main(rt: HostRuntime) -> ExitCode {
    match run(&rt) {
        Ok(true) => ExitCode::from(0),
        _ => ExitCode::from(1),
    }
}

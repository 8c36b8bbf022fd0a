//! Plays a session with a reset of the processor after each byte of each write of its bank, and writes which image of each critical table
//! comes back after it. The row of a write is written as soon as its resets were tried. With `--mirror` it plays the session over two banks
//! as one, and lets each fail in each write in turn and at the start, and the first in its reads. The bank begins empty, or with the bytes
//! of a store file, which is only read.
#![tactic(auto)]

mod changes;
mod death_text;
mod dying;
mod finder;
mod input;
mod plan;
mod play;
mod recovery;
mod reset_text;
mod store;
mod tables;
mod text;
mod told;
mod tries;
mod trouble;
mod words;
mod write_text;

use finder::tables_of;
use input::{End, Session, read_session};
use plan::{Plan, writes_of};
use play::{Fault, Scenario, behind, close};
use std::alloc::Global;
use std::process::ExitCode;
use store::{CopyFault, copy_of_store, empty_store};
use tbl_adapters::{StandardInput, StandardOutput};
use tbl_fakes::Span;
use tbl_kinds::Entry;
use tbl_outside::Sink;
use told::{Told, tell_all};
use words::{CommandLine, Words, command_line};

/// What `--help` answers.
const HELP: &str = "tbl_resets: which image comes back after a reset

tbl_resets              reads session records from standard input, and writes a table to standard output,
                        each row as it is known
tbl_resets --every N    inside writes of more than 64 bytes it tries only the numbers of bytes that N divides
tbl_resets --mirror     plays the session over two banks as one, each of which dies in one write after the other and at
                        the start, and the first of which answers no read, and tells what comes back after the next start
tbl_resets --help       writes this text to standard output

Before these words may stand:
--store FILE            preserved memory begins with a copy of this store file. The file is only read, and it is locked while it is

It ends with one of these statuses:
0  the work is done
1  memory ran out, or a mix of images came back, or an image was lost with --mirror
2  the words are none of the above, and nothing was read or written
3  reading failed
4  writing failed
5  a record of the input is bad or cut short; the records before it were tried
6  the input goes on after 32,768 records, or has too many to ask the service for more
7  the store file can't be read, or is in use by another program; standard error says why, and nothing was tried
";

/// What is tried of a session.
#[derive(Clone, Copy)]
struct Mode {
    /// Inside long writes each number of bytes is tried that this one divides.
    every: u32,
    /// Whether one of two banks fails, instead of resets.
    is_mirrored: bool,
}

impl Mode {
    fn resets(every: u32) -> Mode {
        Mode {
            every,
            is_mirrored: false,
        }
    }

    fn mirror() -> Mode {
        Mode {
            every: 1,
            is_mirrored: true,
        }
    }
}

/// Tries a session whose writes and history are known.
fn tried_behind<R: Eprint>(
    rt: &R,
    scenario: &Scenario<'_>,
    mode: Mode,
    writes: &[Span],
    history: &[Entry],
    told: &mut Told,
) -> Result<(), Fault> {
    let tables = tables_of(scenario, history)?;
    let plan = Plan {
        scenario,
        every: mode.every,
        is_mirrored: mode.is_mirrored,
        writes,
        history,
        tables: &tables,
    };
    tell_all(rt, &plan, told)
}

/// Tries a session over a bank of these bytes.
fn tried<R: Eprint + AllocGlobal>(
    rt: &R,
    store: &[u8],
    session: &Session,
    mode: Mode,
    told: &mut Told,
) -> Result<(), Fault> {
    let records = session.bytes.as_slice();
    let count = session.count as usize;
    let (scenario, writes) = writes_of(rt.alloc(), store, records, count)?;
    let core = behind(&scenario, count)?;
    let done = tried_behind(rt, &scenario, mode, &writes, core.history(), told);
    close(core);
    done
}

/// The status for how an input ended.
fn status_of(end: End) -> u8 {
    match end {
        End::Whole => 0,
        End::ReadFailed => 3,
        End::BadRecord => 5,
        End::TooLong => 6,
    }
}

/// Tries a session, and gives the status for that.
fn try_session<R: Eprint + AllocGlobal>(
    rt: &R,
    store: &[u8],
    session: &Session,
    mode: Mode,
    told: &mut Told,
) -> u8 {
    match tried(rt, store, session, mode, told) {
        Ok(()) if told.counts.mixed > 0 || told.lost > 0 => 1,
        Ok(()) => status_of(session.end),
        Err(Fault::Memory) => 1,
        Err(Fault::Unwritten) => 4,
        Err(Fault::Full) => 6,
    }
}

/// The bytes that preserved memory begins with. If there are none, standard error says why, and the answer is the status.
fn store_bytes(rt: &HostRuntime, name: Option<&str>) -> Result<Vec<u8>, u8> {
    let Some(name) = name else {
        return empty_store(rt.alloc()).map_err(|_| 1);
    };
    match copy_of_store(rt, rt.alloc(), name) {
        Ok(bytes) => Ok(bytes),
        Err(CopyFault::Memory) => Err(1),
        Err(fault) => {
            let _ = eprintln!(rt; "resets: {name} {fault}");
            Err(7)
        }
    }
}

/// Reads a session, tries it over a bank of these bytes, and gives the status for that.
fn try_input(rt: &HostRuntime, store: &[u8], mode: Mode, sink: StandardOutput) -> u8 {
    let alloc = rt.alloc();
    let mut source = StandardInput::of(rt.stdin());
    let Ok(session) = read_session(alloc, &mut source) else {
        return 1;
    };
    let mut told = Told::make(alloc, sink);
    try_session(rt, store, &session, mode, &mut told)
}

/// Tries the session of standard input over the store that the command line names, and gives the status for that.
fn try_over(rt: &HostRuntime, line: &CommandLine, mode: Mode, sink: StandardOutput) -> u8 {
    match store_bytes(rt, line.store.as_deref()) {
        Ok(store) => try_input(rt, &store, mode, sink),
        Err(status) => status,
    }
}

fn main(rt: HostRuntime) -> ExitCode {
    let mut sink = StandardOutput::of(rt.stdout());
    let line = command_line(&rt);
    let status = match line.words {
        Words::Try { every } => try_over(&rt, &line, Mode::resets(every), sink),
        Words::Mirror => try_over(&rt, &line, Mode::mirror(), sink),
        Words::Help if sink.write(HELP.as_bytes()).is_ok() => 0,
        Words::Help => 4,
        Words::Unknown => 2,
        Words::Memory => 1,
    };
    ExitCode::from(status)
}

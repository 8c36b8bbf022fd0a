//! The program: it does what its words say, between standard input, standard output and the store file.
#![tactic(auto)]

ghost use Rattle.std.specs.Prelude.{◌≤◌};
ghost use Rattle.tbl_kinds.specs.Places.{bank_size};

use command_line::{Information, WordsFault, command_line, open_store};
use shipped_kit::shipped_entries;
use std::alloc::Global;
use std::process::ExitCode;
use std::sync::Wait;
use std::thread::Threads;
use tbl_adapters::{StandardInput, StandardOutput};
use tbl_kinds::{Bytes, Memory};
use tbl_outside::{Bank, Gate, Sink, Source};
use tbl_top::{Service, run};

/// What `--help` answers.
const HELP: &str = "tbl: the cFE table service, played from a session

tbl play       reads session records from standard input and writes the transcript to standard output. Blocks of the
               Critical Data Store are kept in the file cds.store of the working folder, which is made if it isn't there
tbl crew       does the same with a thread for each actor: it reads all records, plays them, and then writes the transcript.
               Each actor's records are played in their order, and the order between actors differs from run to run
tbl watch      plays as tbl crew does, and writes a report of the images that application 16 got in the place of the transcript
tbl play admit S P, tbl crew admit S P
               does the same, and loads table files from the spacecraft S and the processors P alone: each is any, or one or
               two numbers with a comma between them
tbl store      writes what the store in that file has, a line a block, to standard output
tbl drill SEED ROUNDS
               plays a session of 9 and ROUNDS records, which the SEED decides, over that file, and writes a line that sums it up
tbl make       reads the description of a table from standard input and writes its table file to standard output
tbl describe SHAPE
               reads a table file and writes its description. The SHAPE has the types and names of the fields, as in
               u16:limit,i16:gain,hex4:key
tbl --help     writes this text to standard output
tbl --version  writes the version to standard output

Before these words may stand:
--store FILE   the Critical Data Store is in this file, in the place of cds.store
--durable      each write of that file is synced to the disk before it counts as done
The file is locked while the program runs.

It ends with one of these statuses:
0  the work is done, and of play, crew and watch the input was read to its end
1  memory ran out
2  the words aren't any of the above, and nothing was read or written
3  reading failed
4  writing failed
5  a record of the input is bad or cut short; the records before it were played
6  the input goes on after 32,768 records, which were played
7  the store file can't be opened or made longer, is in use by another program, or failed in a boot; no record was played
   after that. Standard error says why it can't be opened
9  the input of make is no description; its first bad line was written, as in line 3
10 the input of describe is no table file that can be described
11 the shape has another length than the image of the file
12 the input of make or describe has more than 1,048,576 bytes
";

/// What `--version` answers.
const VERSION: &str = "tbl 1.0.0\n";

/// What the program says of itself.
const INFORMATION: Information = Information {
    help: HELP,
    version: VERSION,
};

/// The gate of the program, which returns at once.
struct OpenGate;

impl Gate for OpenGate {
    fn before(&self, _actor: u8, _nth: u32) {}

    fn after(&self, _actor: u8, _nth: u32) {}

    fn reading(&self, _actor: u8) {}
}

/// Plays a session with the shipped validation functions.
fn play<R: Threads + Wait + Sync, S: Source, K: Sink, B: Bank + Send>(
    rt: &R,
    alloc: Global,
    words: &[Bytes],
    source: &mut S,
    sink: &mut K,
    bank: B,
) -> Result<u8, Memory>
    requires { bank_size ≤ B.size bank }
{
    let kit = shipped_entries(alloc)?;
    let (status, _bank) = run(
        rt,
        words,
        source,
        sink,
        Service { alloc, bank, kit },
        &OpenGate,
    );
    Ok(status)
}

fn main(rt: HostRuntime) -> ExitCode {
    let line = match command_line(&rt) {
        Ok(line) => line,
        Err(WordsFault::Memory) => return ExitCode::from(1),
        Err(WordsFault::Unreadable | WordsFault::NoName) => return ExitCode::from(2),
    };
    let mut sink = StandardOutput::of(rt.stdout());
    if let Some(status) = INFORMATION.answer(&line.words, &mut sink) {
        return ExitCode::from(status);
    }
    let Some(bank) = open_store(&rt, "tbl", &line) else {
        return ExitCode::from(7);
    };
    let mut source = StandardInput::of(rt.stdin());
    match play(&rt, rt.alloc(), &line.words, &mut source, &mut sink, bank) {
        Ok(status) => ExitCode::from(status),
        Err(Memory) => ExitCode::from(1),
    }
}

//! The program of a service that lives: records from standard input, entries to standard output, blocks in the store file.
#![tactic(auto)]

ghost use Rattle.std.specs.Prelude.{◌≤◌};
ghost use Rattle.tbl_kinds.specs.Places.{bank_size};

use command_line::{Information, WordsFault, command_line, open_store};
use shipped_kit::shipped_entries;
use std::alloc::Global;
use std::process::ExitCode;
use tbl_adapters::{StandardInput, StandardOutput};
use tbl_kinds::{Bytes, Memory};
use tbl_outside::{Bank, Sink, Source};
use tbl_stream::{Service, serve};

/// What `--help` answers.
const HELP: &str = "tbl_serve: the cFE table service, for as long as records come

tbl_serve      reads session records from standard input and writes the entry of each to standard output before it reads on.
               It keeps no history, so it takes no more memory for a million records than for ten. Blocks of the Critical
               Data Store are kept in the file cds.store of the working folder, which is made if it isn't there
tbl_serve admit S P
               does the same, and loads table files from the spacecraft S and the processors P alone: each is any, or one or
               two numbers with a comma between them
tbl_serve --help
               writes this text to standard output
tbl_serve --version
               writes the version to standard output

Before these words may stand:
--store FILE   the Critical Data Store is in this file, in the place of cds.store
--durable      each write of that file is synced to the disk before it counts as done
The file is locked while the program runs.

It ends with one of these statuses:
0  the input was read to its end
1  memory ran out
2  the words aren't any of the above, and nothing was read or written
3  reading failed
4  writing failed
5  a record of the input is bad or cut short; the records before it were played
7  the store file can't be opened or made longer, is in use by another program, or failed in a boot; no record was played
   after that. Standard error says why it can't be opened
13 a table has had 4,294,967,293 images; a reset makes room
";

/// What `--version` answers.
const VERSION: &str = "tbl_serve 1.0.0\n";

/// What the program says of itself.
const INFORMATION: Information = Information {
    help: HELP,
    version: VERSION,
};

/// Serves with the shipped validation functions.
fn play<S: Source, K: Sink, B: Bank>(
    alloc: Global,
    words: &[Bytes],
    source: &mut S,
    sink: &mut K,
    bank: B,
) -> Result<u8, Memory>
    requires { bank_size ≤ B.size bank }
{
    let kit = shipped_entries(alloc)?;
    let service = Service { alloc, bank, kit };
    let (status, _bank) = serve(words, source, sink, service);
    Ok(status)
}

fn main(rt: HostRuntime) -> ExitCode {
    let line = match command_line(&rt) {
        Ok(line) => line,
        Err(WordsFault::Memory) => return ExitCode::from(1),
        Err(WordsFault::Unreadable | WordsFault::NoName) => return ExitCode::from(2),
    };
    let mut sink = StandardOutput::of(rt.stdout());
    if let Some(status) = INFORMATION.answer(&line.words, &mut sink) {
        return ExitCode::from(status);
    }
    let Some(bank) = open_store(&rt, "tbl_serve", &line) else {
        return ExitCode::from(7);
    };
    let mut source = StandardInput::of(rt.stdin());
    match play(rt.alloc(), &line.words, &mut source, &mut sink, bank) {
        Ok(status) => ExitCode::from(status),
        Err(Memory) => ExitCode::from(1),
    }
}

//! Runs as a table states them.

use crate::crews::{try_free, try_ordered};
use crate::cuts::try_cuts;
use crate::ending::{status_of, try_ending, try_front};
use crate::feeding::try_lengths;
use crate::meeting::{try_meeting, try_reading};
use crate::second_runs::try_again;
use crate::sessions::try_session;
use crate::turns::try_turns;
use std::sync::Wait;
use std::thread::Threads;
use tbl_fakes::{CalmSink, CalmSource};
use tbl_kinds::Bytes;
use test_tables::{CaseFault, Row, RowCases, count_of, one_word};

/// The application that reads while another thread has its turn.
const READER: u8 = 1;

/// The application whose images `watch` looks at.
const WATCHER: u8 = 16;

/// Tries runs.
#[derive(Drop)]
pub(crate) struct Runs;

fn try_run<R: Threads + Wait + Sync>(rt: &R, row: &Row) -> Result<u32, CaseFault> {
    let words = row.words(1)?;
    try_ending(rt, row, &words, 2, 6, row.number(5)?)?;
    Ok(1)
}

/// Runs with a word that plays a session.
fn try_word<R: Threads + Wait + Sync>(rt: &R, row: &Row, word: &str) -> Result<(), CaseFault> {
    let words = one_word(row.alloc(), word)?;
    try_ending(rt, row, &words, 1, 5, row.number(4)?)
}

/// Runs with each of the words that play a session.
fn try_both<R: Threads + Wait + Sync>(rt: &R, row: &Row) -> Result<u32, CaseFault> {
    try_word(rt, row, "play")?;
    try_word(rt, row, "crew")?;
    Ok(2)
}

/// Runs with each room in the sink up to that for the whole output. All but the last end with a failed write.
fn try_rooms<R: Threads + Wait + Sync>(rt: &R, row: &Row) -> Result<u32, CaseFault> {
    let words = row.words(1)?;
    let most = count_of(&row.bytes(9)?)?;
    for room in 0..most {
        try_front(rt, row, &words, room)?;
    }
    try_ending(rt, row, &words, 2, 5, most)?;
    Ok(most.saturating_add(1))
}

/// Runs between a source and a sink that never fail, and compares the status and how many bytes are left.
fn run_calm<R: Threads + Wait + Sync>(
    rt: &R,
    row: &Row,
    words: &[Bytes],
    source: &mut CalmSource,
) -> Result<u32, CaseFault> {
    let status = status_of(rt, row.alloc(), words, source, &mut CalmSink::make())?;
    row.same_number(3, u64::from(status))?;
    row.same_number(4, source.left_bytes().len() as u64)?;
    Ok(1)
}

/// Runs where nothing can fail.
fn try_calm<R: Threads + Wait + Sync>(rt: &R, row: &Row) -> Result<u32, CaseFault> {
    let words = row.words(1)?;
    let mut source = CalmSource::make(row.kept(2)?);
    run_calm(rt, row, &words, &mut source)
}

impl RowCases for Runs {
    /// A row is `run | WORDS | INPUT | BAD READS | BAD WRITES | ROOM | STATUS | READ FAULTS | WRITE FAULTS | LEFT |
    /// OUTPUT`: what the run is given, and how it ends, with so many bytes of the input left. It begins with `both`, and has no words,
    /// where it ends so with `play` and with `crew`. It begins with `rooms` and has
    /// no room where each room up to that for the whole output is tried. `calm | WORDS | INPUT | STATUS | LEFT` is a run between a
    /// source and a sink that never fail. `fed | FIRST | SECOND | LENGTHS | BETWEEN | STATUS | ENTRIES | OUTPUT` is an input in two
    /// parts, which are fed in pieces of each of these lengths: how many bytes the sink has between the parts, and how it ends.
    ///
    /// `play | NAME | INPUT | BANK | BREAKS | BAD READS | STATUS | OUTPUT | WRITES | BANK` is a session over a bank in memory:
    /// what the bank holds before it, which of its writes break off and which of its reads fail, and then how it ends, with the
    /// ranges of all writes and the bank after it. With `crew` or `watch` in the place of `play` it is played with a thread for
    /// each actor, with `store` or `drill SEED ROUNDS` there is no input, and with `make` or `describe SHAPE` it is a description or a
    /// table file.
    ///
    /// `again | WORD | NAME | INPUT | INPUT | BREAKS | STATUS | OUTPUT
    /// | STATUS | OUTPUT` is a session with this word over a bank of zeros, a write of which breaks off at each of these places, and
    /// then a second one in order over the bank that the first gave back, with how each ends. `cut | WORD | NAME | INPUT | CUT | CUT |
    /// STATUS | OUTPUT` is a session over a bank of zeros with this word, or with `both`, whose source and sink are cut after so many
    /// bytes, or never where the cell is empty.
    ///
    /// `free | NAME | INPUT | BANK | BREAKS | BAD READS | STATUS | OUTPUT | TOLD` is a session with a thread for each actor over such
    /// a bank, whose entries are those of each actor in the output, in their order, and in any order between actors. The last cell
    /// has what the gate was told, as `1/5/5/0` for each actor: how many records were about to be played, how many were played, and
    /// how often it took the bytes of a pinned image. `/disorder` stands after it where their numbers didn't come from 0 on, each
    /// first as about to be played and then as played. `ordered` has the cells of `free` but for the last one: the gate lets the
    /// threads have their turns in the order of the entries in the output, and that is what comes.
    ///
    /// `meet | INPUT | STATUS | OUTPUT | OUTPUT | PLAYED` is a session in threads, of which those of applications 1 and 2 wait
    /// for each other: the two outputs that may come, and how many records the threads play. `beside | INPUT | STATUS | OUTPUT |
    /// PLAYED` is one in which application 1 takes the bytes of a pinned image while application 2 has its first turn, and with
    /// `watched` application 16 makes a check word meanwhile. `turns | WHAT CAME` are two turns
    /// of application 1 without a thread, of two applications that ask to start: what each comes to, how many entries stand
    /// after them, and whether the crew ends well.
    fn try_row<R: Threads + Wait + Sync>(&mut self, rt: &R, row: &Row) -> Result<u32, CaseFault> {
        match (row.text(0)?, row.len()) {
            ("run", 11) => try_run(rt, row),
            ("both", 10) => try_both(rt, row),
            ("rooms", 10) => try_rooms(rt, row),
            ("calm", 5) => try_calm(rt, row),
            ("fed", 8) => try_lengths(row),
            ("play" | "crew" | "watch" | "store" | "make", 10) => try_session(rt, row),
            (words, 10) if words.starts_with("drill ") || words.starts_with("describe ") => {
                try_session(rt, row)
            }
            ("cut", 8) => try_cuts(rt, row),
            ("again", 10) => try_again(rt, row),
            ("free", 9) => try_free(rt, row),
            ("ordered", 8) => try_ordered(rt, row),
            ("meet", 6) => try_meeting(rt, row),
            ("beside", 5) => try_reading(rt, row, "crew", READER),
            ("watched", 5) => try_reading(rt, row, "watch", WATCHER),
            ("turns", 2) => try_turns(row),
            _ => Err(CaseFault::Unreadable),
        }
    }
}

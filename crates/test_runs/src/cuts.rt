//! Sessions whose source or sink is cut.

use crate::sessions::{Session, ample_sink, whole_source};
use std::sync::Wait;
use std::thread::Threads;
use tbl_fakes::{MemSink, MemSource, OpenGate};
use test_tables::{CaseFault, Row, new_bank};

/// The source of a row. After how many bytes it is cut stands in a cell, which is empty where it isn't.
fn source_in(row: &Row) -> Result<MemSource, CaseFault> {
    if row.text(4)?.is_empty() {
        return whole_source(row, 3);
    }
    Ok(MemSource::cut(row.kept(3)?, row.number(4)?))
}

/// The sink of a row. After how many bytes it is cut stands in a cell, which is empty where it isn't.
fn sink_in(row: &Row) -> Result<MemSink, CaseFault> {
    if row.text(5)?.is_empty() {
        return ample_sink(row, 7);
    }
    Ok(MemSink::cut(row.alloc(), row.number(5)?)?)
}

/// Plays a session over a bank of zeros, and compares its status and what the sink took.
fn try_cut<R: Threads + Wait + Sync>(rt: &R, row: &Row, word: &str) -> Result<u32, CaseFault> {
    let source = source_in(row)?;
    let mut session = Session::between(row, word, source, sink_in(row)?)?;
    let (status, _bank) = session.play(rt, row.alloc(), new_bank(row.alloc())?, &OpenGate)?;
    session.compare(row, 6, status)?;
    Ok(1)
}

/// Plays it with the word of a cell, or with each of the words that play a session.
pub(crate) fn try_cuts<R: Threads + Wait + Sync>(rt: &R, row: &Row) -> Result<u32, CaseFault> {
    match row.text(1)? {
        "both" => {
            try_cut(rt, row, "play")?;
            try_cut(rt, row, "crew")?;
            Ok(2)
        }
        word => try_cut(rt, row, word),
    }
}

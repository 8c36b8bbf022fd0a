//! Runs over a bank whose writes break off and whose reads fail.

ghost use Rattle.std.specs.Prelude.{◌≤◌, length};
ghost use Rattle.tbl_kinds.specs.Places.{bank_size};

use crate::banks::{same_bank, same_writes};
use shipped_kit::shipped_entries;
use std::alloc::Global;
use std::sync::Wait;
use std::thread::Threads;
use tbl_fakes::{MemBank, MemSink, MemSource, OpenGate};
use tbl_kinds::{Bytes, Memory};
use tbl_outside::Gate;
use tbl_top::{BetweenCalls, Service, run, run_again};
use test_tables::{CaseFault, Row, bank_in, count_of, kept};

/// For how many bytes the sink has room beside those that are wanted.
const MORE_OUTPUT: u32 = 512;

/// What a session is given beside its bank.
#[derive(Drop)]
pub(crate) struct Session {
    pub(crate) given: tbl_top::Session<MemSource, MemSink>,
}

/// The words of a text, each as the bytes that a program is given.
fn words_of(alloc: Global, text: &str) -> Result<Vec<Bytes>, CaseFault> {
    let mut words = Vec::new(alloc);
    for word in text.split_ascii_whitespace() {
        words.push(kept(alloc, word.as_bytes())?)?;
    }
    Ok(words)
}

/// A source that gives the whole input, which stands in a cell of a row.
pub(crate) fn whole_source(row: &Row, input: usize) -> Result<MemSource, CaseFault> {
    Ok(MemSource::make(row.alloc(), row.kept(input)?, &[])?)
}

/// A sink that takes the whole output, which stands in a cell of a row, and more.
pub(crate) fn ample_sink(row: &Row, output: usize) -> Result<MemSink, CaseFault> {
    let room = count_of(&row.bytes(output)?)?;
    Ok(MemSink::make(row.alloc(), room.saturating_add(MORE_OUTPUT), &[])?)
}

impl Session {
    /// A session with these words, whose input stands in a cell of a row, and the output that is wanted in another one.
    pub(crate) fn make(
        row: &Row,
        words: &str,
        input: usize,
        output: usize,
    ) -> Result<Session, CaseFault> {
        let source = whole_source(row, input)?;
        Session::between(row, words, source, ample_sink(row, output)?)
    }

    /// A session with these words between a source and a sink.
    pub(crate) fn between(
        row: &Row,
        words: &str,
        source: MemSource,
        sink: MemSink,
    ) -> Result<Session, CaseFault> {
        let words = words_of(row.alloc(), words)?;
        Ok(Session {
            given: tbl_top::Session {
                words,
                source,
                sink,
            },
        })
    }

    /// Plays it over a bank. The gate is told of each turn of a thread. The status, and the bank after it.
    pub(crate) fn play<R: Threads + Wait + Sync, G: Gate + Sync>(
        &mut self,
        rt: &R,
        alloc: Global,
        bank: MemBank,
        gate: &G,
    ) -> Result<(u8, MemBank), Memory>
        requires { bank_size ≤ length bank.bytes }
    {
        let kit = shipped_entries(alloc)?;
        Ok(run(
            rt,
            &self.given.words,
            &mut self.given.source,
            &mut self.given.sink,
            Service { alloc, bank, kit },
            gate,
        ))
    }

    /// Plays it over a bank, and another one over what a reset between two calls of the bank left of it. Both statuses.
    pub(crate) fn play_again<R: Threads + Wait + Sync>(
        &mut self,
        rt: &R,
        next: &mut Session,
        alloc: Global,
        bank: MemBank,
    ) -> Result<(u8, u8), Memory>
        requires { bank_size ≤ length bank.bytes }
    {
        let kit = shipped_entries(alloc)?;
        let next_kit = shipped_entries(alloc)?;
        let (status, (next_status, _bank)) = run_again(
            rt,
            &mut self.given,
            Service { alloc, bank, kit },
            &mut BetweenCalls,
            &mut next.given,
            next_kit,
            &OpenGate,
        );
        Ok((status, next_status))
    }

    /// Compares a status with a cell of a row, and the output with the next one.
    pub(crate) fn compare(&self, row: &Row, at: usize, status: u8) -> Result<(), CaseFault>
        requires { at ≤ 8 }
    {
        row.same_number(at, u64::from(status))?;
        row.same_bytes(at + 1, self.given.sink.taken())
    }

    /// Plays it over a bank, which comes back, and compares the status and the output with two cells of a row.
    fn play_row<R: Threads + Wait + Sync>(
        &mut self,
        rt: &R,
        row: &Row,
        at: usize,
        bank: MemBank,
    ) -> Result<MemBank, CaseFault>
        requires room { bank_size ≤ length bank.bytes }
        requires cells { at ≤ 8 }
    {
        let (status, bank) = self.play(rt, row.alloc(), bank, &OpenGate)?;
        self.compare(row, at, status)?;
        Ok(bank)
    }
}

/// Runs with these words over a bank, which comes back. Its input stands in a cell of a row, and the status and the
/// output, which are compared, in two others.
pub(crate) fn play<R: Threads + Wait + Sync>(
    rt: &R,
    row: &Row,
    words: &str,
    input: usize,
    wanted: usize,
    bank: MemBank,
) -> Result<MemBank, CaseFault>
    requires room { bank_size ≤ length bank.bytes }
    requires cells { wanted ≤ 8 }
{
    let mut session = Session::make(row, words, input, wanted + 1)?;
    session.play_row(rt, row, wanted, bank)
}

/// Compares a bank's writes and what it holds after a session.
fn compare_bank(row: &Row, bank: &MemBank) -> Result<u32, CaseFault> {
    same_writes(row, 8, bank.spans())?;
    same_bank(row, 9, bank.bytes())?;
    Ok(1)
}

/// Plays a session, and compares how it ends.
pub(crate) fn try_session<R: Threads + Wait + Sync>(rt: &R, row: &Row) -> Result<u32, CaseFault> {
    let bank = bank_in(row)?;
    let bank = play(rt, row, row.text(0)?, 2, 6, bank)?;
    compare_bank(row, &bank)
}

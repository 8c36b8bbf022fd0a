//! A run, and how it ended.

ghost use Rattle.std.specs.Prelude.{◌≡◌, ◌≤◌, length, IfOk};
ghost use Rattle.tbl_kinds.specs.Places.{bank_size};

use std::alloc::Global;
use std::sync::Wait;
use std::thread::Threads;
use tbl_fakes::{CalmBank, MemSink, MemSource, OpenGate};
use tbl_kinds::{Bytes, Memory};
use tbl_outside::{KitEntry, Sink, Source};
use tbl_top::{Service, run};
use test_tables::{CaseFault, Row};

/// How many bytes the bank has.
const BANK_SIZE: u32 = 262_144;

/// The status of a run whose sink fails.
const WRITE_FAILED: u8 = 4;

/// How a run ended.
#[derive(Drop)]
struct Ending {
    status: u8,
    source: MemSource,
    sink: MemSink,
}

/// A bank of zeros.
pub(crate) fn bank(alloc: Global) -> Result<CalmBank, Memory>
    ensures { IfOk result (λ bank. length bank ≡ bank_size) }
{
    CalmBank::of_zeros(alloc, BANK_SIZE)
}

/// Runs over a bank of zeros, without validation functions, and gives the status.
pub(crate) fn status_of<R: Threads + Wait + Sync, S: Source, K: Sink>(
    rt: &R,
    alloc: Global,
    words: &[Bytes],
    source: &mut S,
    sink: &mut K,
) -> Result<u8, Memory> {
    let bank = bank(alloc)?;
    let kit: Vec<KitEntry> = Vec::new(alloc);
    let (status, _bank) = run(
        rt,
        words,
        source,
        sink,
        Service { alloc, bank, kit },
        &OpenGate,
    );
    Ok(status)
}

/// The source of a row: its input stands in a cell, and the numbers of the reads that fail, from 1, in the next one.
fn source_in(row: &Row, at: usize) -> Result<MemSource, CaseFault>
    requires { at ≤ 2 }
{
    let bad_reads = row.numbers(at + 1)?;
    Ok(MemSource::make(row.alloc(), row.kept(at)?, &bad_reads)?)
}

/// A sink with room for so many bytes. The numbers of the writes that fail, from 1, stand in a cell of a row.
fn sink_in(row: &Row, at: usize, room: u32) -> Result<MemSink, CaseFault> {
    let bad_writes = row.numbers(at)?;
    Ok(MemSink::make(row.alloc(), room, &bad_writes)?)
}

/// Runs with these words, the input that stands in a cell of a row, and the failures in the cells after it.
fn run_row<R: Threads + Wait + Sync>(
    rt: &R,
    row: &Row,
    words: &[Bytes],
    input: usize,
    room: u32,
) -> Result<Ending, CaseFault>
    requires { input ≤ 2 }
{
    let mut source = source_in(row, input)?;
    let mut sink = sink_in(row, input + 2, room)?;
    let status = status_of(rt, row.alloc(), words, &mut source, &mut sink)?;
    Ok(Ending {
        status,
        source,
        sink,
    })
}

/// Whether a run ended as a row states from a cell on: its status, how often reading and writing failed, how many bytes of
/// the input weren't read, and the output.
fn compare(row: &Row, at: usize, came: &Ending) -> Result<(), CaseFault>
    requires { at ≤ 6 }
{
    row.same_number(at, u64::from(came.status))?;
    row.same_number(at + 1, came.source.faults())?;
    row.same_number(at + 2, came.sink.faults())?;
    row.same_number(at + 3, came.source.left_bytes().len() as u64)?;
    row.same_bytes(at + 4, came.sink.taken())
}

/// Whether a run ended with a failed write, and so many bytes of the output that stands in a cell of a row.
fn compare_front(row: &Row, at: usize, room: u32, came: &Ending) -> Result<(), CaseFault> {
    let output = row.bytes(at)?;
    let taken = came.sink.taken();
    if came.status == WRITE_FAILED && output.get(..room as usize) == Some(taken) {
        return Ok(());
    }
    Err(CaseFault::Differs(hex::encode(row.alloc(), taken)?))
}

/// Runs with these words and the input that stands in a cell of a row, and compares how that ends with what the row states
/// from another cell on.
pub(crate) fn try_ending<R: Threads + Wait + Sync>(
    rt: &R,
    row: &Row,
    words: &[Bytes],
    input: usize,
    wanted: usize,
    room: u32,
) -> Result<(), CaseFault>
    requires input { input ≤ 2 }
    requires wanted { wanted ≤ 6 }
{
    let came = run_row(rt, row, words, input, room)?;
    compare(row, wanted, &came)
}

/// Runs with these words and less room than for the output of a row, whose front is to be there then.
pub(crate) fn try_front<R: Threads + Wait + Sync>(
    rt: &R,
    row: &Row,
    words: &[Bytes],
    room: u32,
) -> Result<(), CaseFault> {
    let came = run_row(rt, row, words, 2, room)?;
    compare_front(row, 9, room, &came)
}

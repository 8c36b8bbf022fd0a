//! Banks as the cells of a row state them: what they hold, which of their writes break off and which of their reads fail.

ghost use Rattle.std.specs.Prelude.{◌≡◌, length, IfOk};
ghost use Rattle.tbl_kinds.specs.Places.{bank_size};

use crate::fault::CaseFault;
use crate::number::number_in;
use crate::row::Row;
use std::alloc::Global;
use tbl_fakes::{Break, MemBank};
use tbl_kinds::Memory;

/// For how many writes a bank has room in its record.
const MOST_WRITES: u32 = 512;

/// For how many bytes of all its writes a bank has room in its record.
const MOST_WRITTEN: u32 = 65_536;

/// How many bytes a bank has.
pub const BANK_SIZE: usize = 262_144;

/// A bank that nothing was written to. Copies of it take a build that checks each access far less time than loops over
/// single bytes.
static ZEROS: [u8; BANK_SIZE] = [0; BANK_SIZE];

/// The bytes of a bank that nothing was written to.
pub fn zeros(alloc: Global) -> Result<Vec<u8>, Memory>
    ensures { IfOk result (λ b. length b.items ≡ bank_size) }
{
    Ok(Vec::from_slice(alloc, &ZEROS)?)
}

/// Writes bytes over those of a bank from a place on, where they lie inside.
fn patch(bytes: &mut Vec<u8>, at: usize, content: &[u8]) -> Result<(), CaseFault>
    ensures { length bytes.new.items ≡ length bytes.old.items }
{
    let size = bytes.len();
    if at <= size && content.len() <= size - at {
        bytes[at..at + content.len()].copy_from_slice(content);
        return Ok(());
    }
    Err(CaseFault::Unreadable)
}

/// Writes over the bytes of a bank what two words say: a place, and what stands there.
fn patch_pair(alloc: Global, bytes: &mut Vec<u8>, pair: &[&str]) -> Result<(), CaseFault>
    ensures { length bytes.new.items ≡ length bytes.old.items }
{
    match pair {
        [at, content] => {
            let content = hex::decode(alloc, content)?;
            patch(bytes, number_in(at)? as usize, &content)
        }
        _ => Err(CaseFault::Unreadable),
    }
}

/// The bytes of a bank: zeros, over which stands what a cell has, as `0 43445331 16 A5`.
pub fn bank_bytes(row: &Row, at: usize) -> Result<Vec<u8>, CaseFault>
    ensures { IfOk result (λ b. length b.items ≡ bank_size) }
{
    let words: Vec<&str> = row.text(at)?.split_ascii_whitespace().collect(row.alloc())?;
    let mut bytes = zeros(row.alloc())?;
    'runs: for pair in words.chunks(2) {
        patch_pair(row.alloc(), &mut bytes, pair)?;
    }
    Ok(bytes)
}

/// A bank of these bytes, whose writes break off and whose reads fail as it is told.
pub fn bank_over(
    alloc: Global,
    bytes: Vec<u8>,
    breaks: &[Break],
    bad_reads: &[u32],
) -> Result<MemBank, CaseFault>
    requires { length bytes.items ≡ bank_size }
    ensures { IfOk result (λ bank. length bank.bytes ≡ bank_size) }
{
    match MemBank::make(alloc, bytes, breaks, bad_reads, MOST_WRITES, MOST_WRITTEN) {
        Ok(bank) => Ok(bank),
        Err(Memory) => Err(CaseFault::Memory),
    }
}

/// A bank that nothing was written to, and in which nothing fails.
pub fn new_bank(alloc: Global) -> Result<MemBank, CaseFault>
    ensures { IfOk result (λ bank. length bank.bytes ≡ bank_size) }
{
    let zeros = zeros(alloc)?;
    bank_over(alloc, zeros, &[], &[])
}

/// A write that breaks off, as `3/15/stop`: its number, after how many bytes, and how.
fn break_in(word: &str) -> Result<Break, CaseFault> {
    if let Some((write, rest)) = word.split_once('/') {
        if let Some((after, how)) = rest.split_once('/') {
            return Ok(Break {
                write: number_in(write)?,
                after: number_in(after)?,
                stop: how == "stop",
            });
        }
    }
    Err(CaseFault::Unreadable)
}

/// The writes that break off.
fn breaks_in(alloc: Global, cell: &str) -> Result<Vec<Break>, CaseFault> {
    let mut breaks = Vec::new(alloc);
    for word in cell.split_ascii_whitespace() {
        breaks.push(break_in(word)?)?;
    }
    Ok(breaks)
}

/// A bank of these bytes. Which of its writes break off and which of its reads fail stands in the cells 4 and 5.
fn broken_bank(row: &Row, bytes: Vec<u8>) -> Result<MemBank, CaseFault>
    requires { length bytes.items ≡ bank_size }
    ensures { IfOk result (λ bank. length bank.bytes ≡ bank_size) }
{
    let breaks = breaks_in(row.alloc(), row.text(4)?)?;
    let bad_reads = row.numbers(5)?;
    bank_over(row.alloc(), bytes, &breaks, &bad_reads)
}

/// The bank before a session: what it holds stands in cell 3, as [`bank_bytes`] reads it, which of its writes break off in the
/// next one, as `3/0/stop 4/15/fail`, and the numbers of its reads that fail in the one after it.
pub fn bank_in(row: &Row) -> Result<MemBank, CaseFault>
    ensures { IfOk result (λ bank. length bank.bytes ≡ bank_size) }
{
    let bytes = bank_bytes(row, 3)?;
    broken_bank(row, bytes)
}

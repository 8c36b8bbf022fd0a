//! The bank with which a script begins.

ghost use Rattle.std.specs.Prelude.{◌≡◌, ◌≤◌, length, IfOk};
ghost use Rattle.tbl_kinds.specs.Places.{bank_size};

use crate::words::{Words, kept};
use cds_layout::BANK_SIZE;
use std::alloc::{AllocError, Global};
use tbl_fakes::{Break, MemBank};
use tbl_kinds::Memory;

/// For how many writes a bank has room in its record.
const MOST_WRITES: u32 = 2_048;

/// For how many bytes of all its writes a bank has room in its record.
const MOST_WRITTEN: u32 = 1_048_576;

fn zeros(alloc: Global) -> Result<Vec<u8>, AllocError>
    ensures { IfOk result (λ v. length v.items ≡ bank_size) }
{
    vec![in alloc; 0; BANK_SIZE as usize]
}

/// Writes a piece over bytes from a place on, where it lies inside.
fn write_over(bytes: &mut [u8], from: usize, piece: &[u8]) -> Option<()>
    ensures { length bytes.new ≡ length bytes.old }
{
    let into = bytes.get_mut(from..)?.get_mut(..piece.len())?;
    into.copy_from_slice(piece);
    Some(())
}

/// `AT BYTES`: what a bank holds there at first.
fn patch(alloc: Global, bytes: &mut [u8], words: &mut Words)
    ensures { length bytes.new ≡ length bytes.old }
{
    let from = words.number() as usize;
    let _ = write_over(bytes, from, &words.bytes(alloc));
}

/// `bank AT BYTES`: the pieces with which the bank begins.
fn patch_all(alloc: Global, bytes: &mut [u8], script: &str)
    ensures { length bytes.new ≡ length bytes.old }
{
    for line in script.lines() {
        let mut words = Words::of(line);
        if words.next() == "bank" {
            patch(alloc, bytes, &mut words);
        }
    }
}

/// `WRITE AFTER HOW`: a write that breaks off, after how many of its bytes, and whether it is stopped.
pub(crate) fn break_in(words: &mut Words) -> Break {
    Break {
        write: words.number(),
        after: words.number(),
        stop: words.next() == "stop",
    }
}

/// `break WRITE AFTER HOW`: the writes that break off.
fn breaks_in(alloc: Global, script: &str) -> Result<Vec<Break>, Memory> {
    let mut breaks = Vec::new(alloc);
    for line in script.lines() {
        let mut words = Words::of(line);
        if words.next() == "break" {
            breaks.push(break_in(&mut words))?;
        }
    }
    Ok(breaks)
}

/// `bad-read READ`: the reads that fail.
fn bad_reads_in(alloc: Global, script: &str) -> Result<Vec<u32>, Memory> {
    let mut reads = Vec::new(alloc);
    for line in script.lines() {
        let mut words = Words::of(line);
        if words.next() == "bad-read" {
            reads.push(words.number())?;
        }
    }
    Ok(reads)
}

/// A bank of these bytes.
fn bank_over(
    alloc: Global,
    bytes: &[u8],
    breaks: &[Break],
    bad_reads: &[u32],
) -> Result<MemBank, Memory>
    requires { length bytes.now ≡ bank_size }
    ensures { IfOk result (λ bank. bank_size ≤ length bank.bytes) }
{
    let bytes = Vec::from_slice(alloc, bytes)?;
    MemBank::make(alloc, bytes, breaks, bad_reads, MOST_WRITES, MOST_WRITTEN)
}

/// The bank with which a script begins.
pub(crate) fn bank_in(alloc: Global, script: &str) -> Result<MemBank, Memory>
    ensures { IfOk result (λ bank. bank_size ≤ length bank.bytes) }
{
    let mut bytes = zeros(alloc)?;
    patch_all(alloc, &mut bytes, script);
    let breaks = breaks_in(alloc, script)?;
    let bad_reads = bad_reads_in(alloc, script)?;
    bank_over(alloc, &bytes, &breaks, &bad_reads)
}

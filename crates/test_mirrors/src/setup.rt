//! The two banks with which a script begins.

ghost use Rattle.std.specs.Prelude.{◌≡◌, ◌<◌, ◌≤◌, ◌^◌, length, IfOk};
ghost use Rattle.tbl_kinds.specs.Places.{bank_size};

use crate::words::{Words, words_after};
use cds_layout::BANK_SIZE;
use std::alloc::{AllocError, Global};
use tbl_fakes::{Break, MemBank};
use tbl_kinds::Memory;

/// For how many writes a bank has room in its record.
const MOST_WRITES: u32 = 2_048;

/// For how many bytes of all its writes a bank has room in its record.
const MOST_WRITTEN: u32 = 1_048_576;

/// How many writes break off from a number on, where all of them are to.
const ALL: u32 = 256;

/// How many bytes a bank of a script has at most, where it isn't one of the service.
const MOST: usize = 64;

/// How a bank of a script is made.
#[derive(Drop)]
pub(crate) struct Setup {
    breaks: Vec<Break>,
    bad_reads: Vec<u32>,
}

/// How many writes the copy of an opening takes.
const COPIES: u32 = (BANK_SIZE + 4_095) / 4_096;

/// The number of a write: `N`, or `+N` counted after the copy of an opening.
fn write_in(words: &mut Words) -> u32 {
    let word = words.next();
    match word.strip_prefix('+') {
        Some(after) => COPIES.saturating_add(after.parse::<u32>().unwrap_or(0)),
        None => word.parse::<u32>().unwrap_or(0),
    }
}

/// `WRITE AFTER HOW`: a write that breaks off, after how many of its bytes, and whether it is stopped.
fn break_in(words: &mut Words) -> Break {
    Break {
        write: write_in(words),
        after: words.number(),
        stop: words.next() == "stop",
    }
}

impl Setup {
    /// A write of this bank that breaks off, all writes of it from a number on, or a read that fails.
    fn note(&mut self, kind: &str, words: &mut Words) -> Result<(), AllocError> {
        match kind {
            "break" => self.breaks.push(break_in(words))?,
            "break-all" => self.break_all(write_in(words))?,
            "bad-read" => self.bad_reads.push(words.number())?,
            _ => {}
        }
        Ok(())
    }

    fn break_all(&mut self, from: u32) -> Result<(), AllocError> {
        for more in 0..ALL {
            self.breaks.push(Break {
                write: from.saturating_add(more),
                after: 0,
                stop: false,
            })?;
        }
        Ok(())
    }

    /// The lines `break NAME WRITE AFTER HOW`, `break-all NAME WRITE` and `bad-read NAME READ` of a script.
    pub(crate) fn of(alloc: Global, lines: &str, name: &str) -> Result<Setup, AllocError> {
        let mut setup = Setup {
            breaks: Vec::new(alloc),
            bad_reads: Vec::new(alloc),
        };
        for line in lines.lines() {
            let mut words = Words::of(line);
            let kind = words.next();
            if words.next() == name {
                setup.note(kind, &mut words)?;
            }
        }
        Ok(setup)
    }

    /// A bank of these bytes.
    pub(crate) fn bank(&self, alloc: Global, bytes: Vec<u8>) -> Result<MemBank, Memory>
        requires { length bytes.items < 2 ^ 32 }
        ensures { IfOk result (λ bank. bank.bytes ≡ bytes.items) }
    {
        MemBank::make(
            alloc,
            bytes,
            &self.breaks,
            &self.bad_reads,
            MOST_WRITES,
            MOST_WRITTEN,
        )
    }
}

/// So many zeros.
pub(crate) fn zeros(alloc: Global, count: u32) -> Result<Vec<u8>, Memory>
    ensures { IfOk result (λ b. length b.items ≡ count) }
{
    Ok(vec![in alloc; 0; count as usize]?)
}

/// The same bytes as a bank keeps them.
pub(crate) fn kept(alloc: Global, bytes: &[u8]) -> Result<Vec<u8>, Memory>
    ensures { IfOk result (λ b. b.items ≡ bytes.now) }
{
    Ok(Vec::from_slice(alloc, bytes)?)
}

/// The bytes of the bank of this name: `NAME BYTES` in hexadecimal, or `NAME bank` for zeros, as many as the service's has and
/// so many more.
pub(crate) fn bytes_of(alloc: Global, lines: &str, name: &str, more: u32) -> Result<Vec<u8>, Memory>
    requires { more ≤ 1 }
    ensures { IfOk result (λ b. length b.items < 2 ^ 32) }
{
    let mut words = words_after(lines, name);
    let bytes = words.bytes(alloc);
    if bytes.is_empty() || MOST < bytes.len() {
        zeros(alloc, BANK_SIZE + more)
    } else {
        kept(alloc, &bytes)
    }
}

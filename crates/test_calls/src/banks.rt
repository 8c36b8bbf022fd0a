//! Calls of banks.

use crate::setup::break_in;
use crate::streams::Shown;
use crate::words::{Words, kept, no_memory, text};
use std::alloc::Global;
use std::io;
use tbl_fakes::{CalmBank, MemBank};
use tbl_kinds::Memory;
use tbl_outside::Bank;

/// How many bytes a bank has at most.
const MOST: usize = 64;

impl Shown for MemBank {
    /// Its bytes, counts and ranges.
    fn show<R: Print>(&self, rt: &R, line: &str) -> io::Result<()> {
        println!(rt;
            "{line} -> {} faults {} stops {} writes {} ranges {:?}",
            text(self.bytes()),
            self.faults(),
            self.stops(),
            self.write_count(),
            self.spans()
        )
    }
}

impl Shown for CalmBank {
    /// Its bytes.
    fn show<R: Print>(&self, rt: &R, line: &str) -> io::Result<()> {
        println!(rt; "{line} -> {}", text(self.bytes()))
    }
}

/// `read AT N`: reads into a piece of so many dots, where it lies inside.
fn read_at<R: Print, B: Bank>(
    rt: &R,
    bank: &mut B,
    words: &mut Words,
    line: &str,
) -> io::Result<()> {
    let mut dots = [b'.'; 8];
    let at = words.number();
    let len = (words.number() as usize).min(8);
    let piece = &mut dots[..len];
    if (bank.size() as usize) < at as usize + len {
        return println!(rt; "{line} -> outside");
    }
    let came = bank.read_at(at, piece);
    println!(rt; "{line} -> {came:?} {}", text(piece))
}

/// `write AT BYTES`, where they lie inside.
fn write_at<R: Print, B: Bank>(
    rt: &R,
    bank: &mut B,
    words: &mut Words,
    line: &str,
) -> io::Result<()> {
    let at = words.number();
    let bytes = words.letters();
    if MOST < bytes.len() || (bank.size() as usize) < at as usize + bytes.len() {
        return println!(rt; "{line} -> outside");
    }
    println!(rt; "{line} -> {:?}", bank.write_at(at, bytes))
}

/// A call of a bank: `read AT N`, `write AT BYTES`, or `show`.
fn call<R: Print, B: Bank + Shown>(rt: &R, bank: &mut B, line: &str) -> io::Result<()> {
    let mut words = Words::of(line);
    match words.next() {
        "read" => read_at(rt, bank, &mut words, line),
        "write" => write_at(rt, bank, &mut words, line),
        _ => bank.show(rt, line),
    }
}

fn play_bank<R: Print, B: Bank + Shown>(rt: &R, bank: &mut B, calls: &str) -> io::Result<()> {
    for line in calls.lines() {
        call(rt, bank, line)?;
    }
    Ok(())
}

/// A bank that begins with these bytes, and never fails.
fn calm_of(alloc: Global, word: &[u8]) -> Result<CalmBank, Memory> {
    let bytes = Vec::from_slice(alloc, &word[..word.len().min(MOST)])?;
    Ok(CalmBank::make(bytes))
}

/// A bank, by the words that state it.
fn mem_of(alloc: Global, words: &mut Words) -> Result<MemBank, Memory> {
    let word = words.letters();
    let bytes = Vec::from_slice(alloc, &word[..word.len().min(MOST)])?;
    let writes = words.number();
    let room = words.number();
    let bad_read = words.number();
    MemBank::make(alloc, bytes, &[break_in(words)], &[bad_read], writes, room)
}

/// `bank BYTES WRITES ROOM BAD-READ WRITE AFTER HOW`: one read fails, and one write breaks off after so many bytes.
pub(crate) fn bank<R: Print + AllocGlobal>(
    rt: &R,
    words: &mut Words,
    calls: &str,
) -> io::Result<()> {
    match mem_of(rt.alloc(), words) {
        Ok(mut bank) => play_bank(rt, &mut bank, calls),
        Err(_) => no_memory(rt),
    }
}

/// `calm-bank BYTES`
pub(crate) fn calm_bank<R: Print + AllocGlobal>(
    rt: &R,
    words: &mut Words,
    calls: &str,
) -> io::Result<()> {
    match calm_of(rt.alloc(), words.letters()) {
        Ok(mut bank) => play_bank(rt, &mut bank, calls),
        Err(_) => no_memory(rt),
    }
}

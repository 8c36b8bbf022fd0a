//! A script of the store is played over a bank in memory, and what comes is told.

ghost use Rattle.std.specs.Prelude.{◌≡◌, ◌≤◌, length};
ghost use Rattle.tbl_kinds.specs.Places.{bank_size};

use crate::served::Served;
use crate::setup::bank_in;
use crate::words::{Words, no_memory, text};
use cds_layout::{TextFault, store_text};
use std::io;
use tbl_fakes::{MemBank, Span};

/// How many bytes are told in a line.
const ROW: usize = 16;

/// Looks at a bank from outside the store, and tells the text.
fn look<R: Print + AllocGlobal>(rt: &R, bank: &mut MemBank) -> io::Result<()>
    requires { bank_size ≤ length bank.old.bytes }
    ensures { length bank.new.bytes ≡ length bank.old.bytes }
{
    match store_text(rt.alloc(), bank) {
        Ok(told) => print!(rt; "{}", text(told.bytes())),
        Err(TextFault::Fault) => println!(rt; "fault"),
        Err(TextFault::Memory) => no_memory(rt),
    }
}

/// Tells the ranges of the writes in order.
fn show_writes<R: Print>(rt: &R, spans: &[Span]) -> io::Result<()> {
    for span in spans {
        println!(rt; "write {} {}", span.at, span.length)?;
    }
    Ok(())
}

/// Tells the bytes of the bank, but for those parts that are all zero.
fn show_bytes<R: Print + AllocGlobal>(rt: &R, bytes: &[u8]) -> io::Result<()> {
    for (row, piece) in bytes.chunks(ROW).enumerate() {
        if piece != [0; ROW].as_slice() {
            let place = ROW.saturating_mul(row);
            println!(rt; "end {place} {}", hex::encode(rt.alloc(), piece)?.as_str())?;
        }
    }
    Ok(())
}

fn has_line(script: &str, wanted: &str) -> bool {
    for line in script.lines() {
        if line == wanted {
            return true;
        }
    }
    false
}

/// Makes the calls of a script over a bank.
fn play_calls<R: Print + AllocGlobal>(rt: &R, script: &str, store: &mut Served) -> io::Result<()> {
    for line in script.lines() {
        let mut words = Words::of(line);
        if words.next() == "call" {
            print!(rt; "{line} -> ")?;
            store.call(rt, &mut words)?;
        }
    }
    Ok(())
}

/// Tells what a bank holds after the calls.
fn show_end<R: Print + AllocGlobal>(rt: &R, script: &str, bank: &mut MemBank) -> io::Result<()>
    requires { bank_size ≤ length bank.old.bytes }
{
    if has_line(script, "text-after") {
        look(rt, bank)?;
    }
    println!(rt; "{} writes", bank.write_count())?;
    show_writes(rt, bank.spans())?;
    show_bytes(rt, bank.bytes())
}

/// Makes the calls of a script over a bank, and tells what it holds after them.
fn play_over<R: Print + AllocGlobal>(rt: &R, script: &str, bank: MemBank) -> io::Result<()>
    requires { bank_size ≤ length bank.bytes }
{
    match Served::make(rt.alloc(), bank) {
        Ok(mut store) => {
            let played = play_calls(rt, script, &mut store);
            let shown = show_end(rt, script, &mut store.end());
            played?;
            shown
        }
        Err(_) => no_memory(rt),
    }
}

/// Tells what a bank holds before the calls, where a script asks for it.
fn show_begin<R: Print + AllocGlobal>(rt: &R, script: &str, bank: &mut MemBank) -> io::Result<()>
    requires { bank_size ≤ length bank.old.bytes }
    ensures { length bank.new.bytes ≡ length bank.old.bytes }
{
    if has_line(script, "text-before") {
        return look(rt, bank);
    }
    Ok(())
}

/// Plays a script, and tells what came.
pub(crate) fn play<R: Print + AllocGlobal>(rt: &R, script: &str) -> io::Result<()> {
    match bank_in(rt.alloc(), script) {
        Ok(mut bank) => {
            let shown = show_begin(rt, script, &mut bank);
            let played = play_over(rt, script, bank);
            shown?;
            played
        }
        Err(_) => no_memory(rt),
    }
}

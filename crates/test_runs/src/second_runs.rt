//! A session, a write of whose bank breaks off, and a second one over the bank that the first gave back.

ghost use Rattle.std.specs.Prelude.{◌≡◌, length, IfOk};
ghost use Rattle.tbl_kinds.specs.Places.{bank_size};

use crate::sessions::Session;
use std::alloc::Global;
use std::sync::Wait;
use std::thread::Threads;
use tbl_fakes::{Break, MemBank};
use test_tables::{CaseFault, Row, bank_over, number_in, zeros};

/// A write that breaks off, after each number of bytes from one to another.
#[derive(Clone, Copy)]
struct Breaks {
    write: u32,
    from: u32,
    to: u32,
    stop: bool,
}

/// A write that breaks off, as `5/0-63/stop` or `5/0-63/fail`.
fn breaks_in(alloc: Global, word: &str) -> Result<Breaks, CaseFault> {
    let parts: Vec<&str> = word.split('/').collect(alloc)?;
    if let [write, range, how] = parts.as_slice() {
        if let Some((from, to)) = range.split_once('-') {
            return Ok(Breaks {
                write: number_in(write)?,
                from: number_in(from)?,
                to: number_in(to)?,
                stop: *how == "stop",
            });
        }
    }
    Err(CaseFault::Unreadable)
}

/// A bank of zeros, one write of which breaks off.
fn broken_bank(alloc: Global, place: Break) -> Result<MemBank, CaseFault>
    ensures { IfOk result (λ bank. length bank.bytes ≡ bank_size) }
{
    let zeros = zeros(alloc)?;
    bank_over(alloc, zeros, &[place], &[])
}

/// Plays both sessions, the second over the bank that the first gave back, and compares how they end.
fn play_both<R: Threads + Wait + Sync>(rt: &R, row: &Row, bank: MemBank) -> Result<(), CaseFault>
    requires { length bank.bytes ≡ bank_size }
{
    let mut first = Session::make(row, row.text(1)?, 3, 7)?;
    let mut second = Session::make(row, "play", 4, 9)?;
    let (status, next_status) = first.play_again(rt, &mut second, row.alloc(), bank)?;
    first.compare(row, 6, status)?;
    second.compare(row, 8, next_status)
}

/// Plays both sessions with a break in one place.
fn try_break<R: Threads + Wait + Sync>(rt: &R, row: &Row, place: Break) -> Result<(), CaseFault> {
    let bank = broken_bank(row.alloc(), place)?;
    play_both(rt, row, bank)
}

/// Plays both with a break in each of the places of a word, and tells how many there are.
fn try_breaks<R: Threads + Wait + Sync>(rt: &R, row: &Row, word: &str) -> Result<u32, CaseFault> {
    let Breaks {
        write,
        from,
        to,
        stop,
    } = breaks_in(row.alloc(), word)?;
    let mut count = 0u32;
    for after in from..=to {
        try_break(rt, row, Break { write, after, stop })?;
        count = count.saturating_add(1);
    }
    Ok(count)
}

/// Plays both with a break in each place of a cell, as `1/0-15/stop 2/0-8192/stop`, and tells how many places there are.
pub(crate) fn try_again<R: Threads + Wait + Sync>(rt: &R, row: &Row) -> Result<u32, CaseFault> {
    let mut count = 0u32;
    for word in row.text(5)?.split_ascii_whitespace() {
        count = count.saturating_add(try_breaks(rt, row, word)?);
    }
    Ok(count)
}

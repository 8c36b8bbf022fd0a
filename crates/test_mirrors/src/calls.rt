//! Calls of two banks as one.

ghost use Rattle.std.specs.Prelude.{◌≡◌, ◌<◌, ◌≤◌, length, false};
ghost use Rattle.bank_mirror.specs.Pairs.{is_stale};

use crate::setup::{Setup, bytes_of, kept};
use crate::words::Words;
use bank_mirror::{Alone, Mirror, OpenBack, STALE};
use cds_layout::LIVE_MARK;
use std::alloc::Global;
use std::io;
use tbl_fakes::MemBank;
use tbl_kinds::Memory;
use tbl_outside::Bank;

/// Two banks in memory as one.
pub(crate) type Both = Mirror<MemBank, MemBank>;

/// Two banks in memory, apart.
#[derive(Drop)]
pub(crate) struct Apart {
    pub(crate) first: MemBank,
    pub(crate) second: MemBank,
}

/// `write AT BYTES`, in hexadecimal.
fn write<R: Print>(rt: &R, both: &mut Both, at: u32, bytes: &[u8], line: &str) -> io::Result<()> {
    if u64::from(both.size()) < u64::from(at) + bytes.len() as u64 {
        return println!(rt; "{line} -> outside");
    }
    let written = both.write_at(at, bytes);
    println!(rt; "{line} -> {written:?} {:?}", both.in_use())
}

/// `read AT COUNT`
fn read<R: Print + AllocGlobal>(
    rt: &R,
    both: &mut Both,
    at: u32,
    count: u32,
    line: &str,
) -> io::Result<()> {
    let mut room = [0; 8];
    let piece = &mut room[..count.min(8) as usize];
    if u64::from(both.size()) < u64::from(at) + piece.len() as u64 {
        return println!(rt; "{line} -> outside");
    }
    match both.read_at(at, piece) {
        Ok(()) => {
            let text = hex::encode(rt.alloc(), piece)?;
            println!(rt; "{line} -> {text} {:?}", both.in_use())
        }
        Err(_) => println!(rt; "{line} -> Failed {:?}", both.in_use()),
    }
}

fn call<R: Print + AllocGlobal>(rt: &R, both: &mut Both, line: &str) -> io::Result<()> {
    let mut words = Words::of(line);
    match words.next() {
        "write" => {
            let at = words.number();
            write(rt, both, at, &words.bytes(rt.alloc()), line)
        }
        "read" => read(rt, both, words.number(), words.number(), line),
        _ => Ok(()),
    }
}

fn call_all<R: Print + AllocGlobal>(
    rt: &R,
    both: &mut Both,
    way: &str,
    calls: &str,
) -> io::Result<()> {
    println!(rt; "open{way} -> {:?}", both.in_use())?;
    for line in calls.lines() {
        call(rt, both, line)?;
    }
    Ok(())
}

/// Opens both in the way that follows the word `open`. With the mark set the first is never taken alone, and a bank that has
/// no place for the mark of a live store isn't looked at.
fn open_as(alloc: Global, apart: Apart, way: &str) -> Result<Both, OpenBack<MemBank, MemBank>>
    requires { length apart.first.bytes < length apart.second.bytes }
{
    let Apart { first, second } = apart;
    let size = first.bytes().len();
    let is_stale = second.bytes()[size] == STALE;
    match way {
        " checked" if size >= LIVE_MARK.len() => {
            Mirror::open_checked(alloc, first, second, &LIVE_MARK)
        }
        " second" => Mirror::take_second(alloc, first, second),
        " first-alone" if !is_stale => Mirror::open_alone(first, second, Alone::First),
        " second-alone" => Mirror::open_alone(first, second, Alone::Second),
        _ => Mirror::open(alloc, first, second),
    }
}

/// Opens both as one, makes the calls, and ends it.
fn opened<R: Print + AllocGlobal>(rt: &R, apart: Apart, calls: &str) -> (Apart, io::Result<()>)
    requires { length apart.first.bytes < length apart.second.bytes }
{
    let way = calls.lines().next().unwrap_or("");
    match open_as(rt.alloc(), apart, way) {
        Ok(mut both) => {
            let told = call_all(rt, &mut both, way, calls);
            let (first, second) = both.end();
            (Apart { first, second }, told)
        }
        Err(back) => {
            let told = println!(rt; "open{way} -> {:?}", back.cause);
            let (first, second) = (back.first, back.second);
            (Apart { first, second }, told)
        }
    }
}

/// A bank of the same bytes that never fails.
fn healed(alloc: Global, bank: &MemBank) -> Result<MemBank, Memory> {
    let bytes = bank.bytes();
    let Ok(_) = u32::try_from(bytes.len()) else {
        return Err(Memory);
    };
    Setup::of(alloc, "", "")?.bank(alloc, kept(alloc, bytes)?)
}

pub(crate) fn both_healed(alloc: Global, apart: &Apart) -> Result<Apart, Memory> {
    Ok(Apart {
        first: healed(alloc, &apart.first)?,
        second: healed(alloc, &apart.second)?,
    })
}

/// The bytes of a bank that aren't 0, each with its place; that of the mark is `mark`.
fn show<R: Print>(rt: &R, name: &str, bytes: &[u8], size: usize) -> io::Result<()> {
    print!(rt; "{name}")?;
    for (at, byte) in bytes.iter().enumerate() {
        if *byte != 0 && at == size {
            print!(rt; " mark={byte:02x}")?;
        } else if *byte != 0 {
            print!(rt; " {at}={byte:02x}")?;
        }
    }
    println!(rt; "")
}

/// Plays a part of a script, from an opening to the next, where the second bank is larger than the first. With a line `heal`
/// the banks never fail afterwards.
fn play_part<R: Print + AllocGlobal>(rt: &R, apart: Apart, calls: &str) -> (Apart, io::Result<()>) {
    if apart.second.bytes().len() <= apart.first.bytes().len() {
        return (apart, println!(rt; "the second is no larger"));
    }
    let (apart, told) = opened(rt, apart, calls);
    if !calls.contains("heal") {
        return (apart, told);
    }
    match both_healed(rt.alloc(), &apart) {
        Ok(healed) => (healed, told),
        Err(Memory) => (apart, println!(rt; "out of memory")),
    }
}

/// The banks with which a script begins.
fn apart_in(alloc: Global, setup: &str) -> Result<Apart, Memory> {
    Ok(Apart {
        first: Setup::of(alloc, setup, "first")?.bank(alloc, bytes_of(alloc, setup, "first", 0)?)?,
        second: Setup::of(alloc, setup, "second")?.bank(
            alloc,
            bytes_of(alloc, setup, "second", 1)?,
        )?,
    })
}

/// Plays each part, and then shows both banks.
fn play_parts<R: Print + AllocGlobal>(rt: &R, apart: Apart, lines: &str) -> io::Result<()> {
    let mut apart = apart;
    for (part, calls) in lines.split("open").enumerate() {
        if part > 0 {
            let (after, told) = play_part(rt, apart, calls);
            apart = after;
            told?;
        }
    }
    let size = apart.first.bytes().len();
    show(rt, "first", apart.first.bytes(), size)?;
    show(rt, "second", apart.second.bytes(), size)
}

/// Plays a script of calls: how the banks are made, and after each line `open` the calls of both as one.
pub(crate) fn play<R: Print + AllocGlobal>(rt: &R, lines: &str) -> io::Result<()> {
    match apart_in(rt.alloc(), lines) {
        Ok(apart) => play_parts(rt, apart, lines),
        Err(Memory) => println!(rt; "out of memory"),
    }
}

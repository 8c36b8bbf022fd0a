//! Sessions of several actors, with a thread for each.

use crate::sessions::Session;
use crate::transcripts::{actors_of, by_actor};
use std::fmt::{self, Write};
use std::sync::Wait;
use std::thread::Threads;
use tbl_fakes::{CountingGate, OrderedGate, Told};
use test_tables::{CaseFault, Row, bank_in, same_bytes, same_text};

/// Compares a status, and what each actor was told, in any order between actors.
fn compare_by_actor(row: &Row, session: &Session, status: u8) -> Result<(), CaseFault> {
    row.same_number(6, u64::from(status))?;
    let came = by_actor(row.alloc(), session.given.sink.taken())?;
    let wanted = by_actor(row.alloc(), &row.bytes(7)?)?;
    same_bytes(row.alloc(), &came, &wanted)
}

/// Writes what a gate was told of an actor; nothing where it wasn't told of it.
fn tell_actor(text: &mut String, actor: usize, told: &Told) -> fmt::Result {
    let Told {
        before,
        after,
        reading,
        is_in_order,
    } = *told;
    if before == 0 && after == 0 && reading == 0 {
        return Ok(());
    }
    let order = if is_in_order { "" } else { "/disorder" };
    write!(text, "{actor}/{before}/{after}/{reading}{order} ")?;
    Ok(())
}

/// Writes what a gate was told.
fn tell_all(text: &mut String, told: &[Told]) -> fmt::Result {
    for (actor, told) in told.iter().enumerate() {
        tell_actor(text, actor, told)?;
    }
    Ok(())
}

/// Compares what a gate was told with a cell of a row.
fn compare_told(row: &Row, gate: &CountingGate) -> Result<(), CaseFault> {
    let told = gate.told(row.alloc())?;
    let mut text = String::new(row.alloc());
    if tell_all(&mut text, &told).is_err() {
        return Err(CaseFault::Memory);
    }
    same_text(text, row.text(8)?)
}

/// Plays a session in which the threads have their turns as they come, and compares how it ends.
fn play_free<R: Threads + Wait + Sync>(
    rt: &R,
    row: &Row,
    gate: &CountingGate,
) -> Result<(), CaseFault> {
    let mut session = Session::make(row, "crew", 2, 7)?;
    let bank = bank_in(row)?;
    let (status, _bank) = session.play(rt, row.alloc(), bank, gate)?;
    compare_by_actor(row, &session, status)
}

/// Plays a session in which the threads have their turns as they come, and compares what the gate was told, too.
pub(crate) fn try_free<R: Threads + Wait + Sync>(rt: &R, row: &Row) -> Result<u32, CaseFault> {
    let gate = CountingGate::make(row.alloc())?;
    play_free(rt, row, &gate)?;
    compare_told(row, &gate)?;
    Ok(1)
}

/// Plays a session in which the gate says whose turn is next, and compares how it ends.
fn play_ordered<R: Threads + Wait + Sync>(
    rt: &R,
    row: &Row,
    gate: &OrderedGate,
) -> Result<(), CaseFault> {
    let mut session = Session::make(row, "crew", 2, 7)?;
    let bank = bank_in(row)?;
    let (status, _bank) = session.play(rt, row.alloc(), bank, gate)?;
    session.compare(row, 6, status)
}

/// Plays a session in which the threads have their turns in the order of the entries that are wanted.
pub(crate) fn try_ordered<R: Threads + Wait + Sync>(rt: &R, row: &Row) -> Result<u32, CaseFault> {
    let gate = OrderedGate::make(actors_of(row.alloc(), &row.bytes(7)?)?);
    play_ordered(rt, row, &gate)?;
    if gate.kept() {
        return Ok(1);
    }
    let text = String::from_str(row.alloc(), "the threads had no such turns")?;
    Err(CaseFault::Differs(text))
}

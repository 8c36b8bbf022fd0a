//! A session of two threads that wait for each other.

use crate::sessions::Session;
use std::sync::Wait;
use std::thread::Threads;
use tbl_fakes::{MeetingGate, ReadingGate};
use tbl_outside::Gate;
use test_tables::{CaseFault, Row, new_bank};

/// Compares a status and an output: one of two, since either thread may have the first turn.
fn compare(row: &Row, session: &Session, status: u8) -> Result<(), CaseFault> {
    if session.given.sink.taken() == row.bytes(4)?.as_slice() {
        return row.same_number(2, u64::from(status));
    }
    session.compare(row, 2, status)
}

/// Plays a session over a bank of zeros, and gives the status with which it ends.
fn meet<G: Gate + Sync, R: Threads + Wait + Sync>(
    rt: &R,
    row: &Row,
    session: &mut Session,
    gate: &G,
) -> Result<u8, CaseFault> {
    let bank = new_bank(row.alloc())?;
    let (status, _bank) = session.play(rt, row.alloc(), bank, gate)?;
    Ok(status)
}

/// Plays the session of a row with a thread for each actor, which tells the gate of each turn.
fn play_between<R: Threads + Wait + Sync>(
    rt: &R,
    row: &Row,
    gate: &MeetingGate,
) -> Result<(), CaseFault> {
    let mut session = Session::make(row, "crew", 1, 3)?;
    let status = meet(rt, row, &mut session, gate)?;
    compare(row, &session, status)
}

/// Whether both threads came while the other one waited, and played as many records as the row states.
fn compare_gate(row: &Row, gate: &MeetingGate) -> Result<(), CaseFault> {
    if gate.met() {
        return row.same_number(5, u64::from(gate.played()));
    }
    let text = String::from_str(row.alloc(), "the threads didn't meet")?;
    Err(CaseFault::Differs(text))
}

/// Plays a session with a thread for each actor, in which those of applications 1 and 2 wait for each other.
pub(crate) fn try_meeting<R: Threads + Wait + Sync>(rt: &R, row: &Row) -> Result<u32, CaseFault> {
    let gate = MeetingGate::make();
    play_between(rt, row, &gate)?;
    compare_gate(row, &gate)?;
    Ok(1)
}

/// Tells a gate for application 1 of what another application reads.
#[derive(Drop)]
struct ReaderGate {
    reader: u8,
    gate: ReadingGate,
}

impl Gate for ReaderGate {
    fn before(&self, actor: u8, nth: u32) {
        self.gate.before(actor, nth);
    }

    fn after(&self, actor: u8, nth: u32) {
        self.gate.after(actor, nth);
    }

    fn reading(&self, actor: u8) {
        if actor == self.reader {
            self.gate.reading(1);
        }
    }
}

/// Plays the session of a row with a thread for each actor, which tells the gate of each turn and of each read.
fn read_between<R: Threads + Wait + Sync>(
    rt: &R,
    row: &Row,
    word: &str,
    gate: &ReaderGate,
) -> Result<(), CaseFault> {
    let mut session = Session::make(row, word, 1, 3)?;
    let status = meet(rt, row, &mut session, gate)?;
    session.compare(row, 2, status)
}

/// Plays a session by this word, with a thread for each actor, in which that of an application takes the bytes of a pinned image while
/// that of application 2 has its first turn.
pub(crate) fn try_reading<R: Threads + Wait + Sync>(
    rt: &R,
    row: &Row,
    word: &str,
    reader: u8,
) -> Result<u32, CaseFault> {
    let gate = ReaderGate {
        reader,
        gate: ReadingGate::make(),
    };
    read_between(rt, row, word, &gate)?;
    if gate.gate.met() {
        row.same_number(4, u64::from(gate.gate.played()))?;
        return Ok(1);
    }
    let text = String::from_str(row.alloc(), "no turn was played while bytes were taken")?;
    Err(CaseFault::Differs(text))
}

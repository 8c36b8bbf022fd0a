//! The statuses and notes of a session's entries.

use crate::stepping::{Service, started, step_all};
use std::alloc::Global;
use std::fmt::{self, Write};
use tbl_kinds::{Admit, BankNote, Bytes, Entry, Outcome};
use test_tables::{CaseFault, Row, bank_in, same_text};

/// Writes how the calls went and how many were done: `-` where none was made.
fn tell_calls(told: &mut String, outcome: Outcome, done: u8) -> fmt::Result {
    let letter = match outcome {
        Outcome::Untouched => return told.write_str("-"),
        Outcome::Done => "D",
        Outcome::Failed => "F",
        Outcome::Stopped => "S",
    };
    write!(told, "{letter}{done}")?;
    Ok(())
}

/// Writes a mark where it holds.
fn tell_mark(told: &mut String, mark: &str, holds: bool) -> fmt::Result {
    if holds { told.write_str(mark) } else { Ok(()) }
}

/// Writes the image that was restored, if there is one.
fn tell_image(told: &mut String, image: &Option<Bytes>) -> fmt::Result {
    if let Some(image) = image {
        told.write_str("r")?;
        for byte in image.bytes() {
            write!(told, "{byte:02X}")?;
        }
    }
    Ok(())
}

/// Writes the check words of a torn block after `t`, if there are any.
fn tell_torn(told: &mut String, torn: u32) -> fmt::Result {
    if torn != 0 {
        write!(told, "t{torn:08X}")?;
    }
    Ok(())
}

/// Writes a note: how the calls went and how many were done, `g` for a gate, `o` for that of a doubtful block, `e` where a
/// boot ended the service and `s` where that was stopped, the image that was restored after `r`, the check words of a torn
/// block after `t`, and each slot that was found after `f`.
fn tell_note(told: &mut String, note: &BankNote) -> fmt::Result {
    tell_calls(told, note.outcome, note.done)?;
    tell_mark(told, "g", note.gate)?;
    tell_mark(told, "o", note.old)?;
    tell_mark(told, "e", note.ended)?;
    tell_mark(told, "s", note.stopped)?;
    tell_image(told, &note.restored)?;
    tell_torn(told, note.torn)?;
    for slot in note.found.list() {
        write!(told, "f{slot}")?;
    }
    Ok(())
}

/// Writes the status of an entry and its note, and a blank after them. One that takes no memory tells how many calls were done.
fn tell_entry(told: &mut String, entry: &Entry) -> fmt::Result {
    let status = entry.reply.status.0;
    write!(told, "{status}:")?;
    match entry.given.touched() {
        Some(note) => tell_note(told, note)?,
        None => tell_calls(told, entry.given.outcome(), entry.given.done_count())?,
    }
    told.write_str(" ")
}

/// Writes the statuses and notes of entries, with blanks after them.
fn tell_entries(told: &mut String, entries: &[Entry]) -> fmt::Result {
    for entry in entries {
        tell_entry(told, entry)?;
    }
    Ok(())
}

/// The statuses and notes of entries, with blanks after them.
fn notes_of(alloc: Global, entries: &[Entry]) -> Result<String, CaseFault> {
    let mut told = String::new(alloc);
    match tell_entries(&mut told, entries) {
        Ok(()) => Ok(told),
        Err(_) => Err(CaseFault::Memory),
    }
}

/// Plays the records of a row, and compares the statuses and notes of all entries.
fn play_notes(row: &Row, core: &mut Service) -> Result<(), CaseFault> {
    let records = row.bytes(2)?;
    step_all(row.alloc(), core, &records)?;
    let told = notes_of(row.alloc(), core.history())?;
    same_text(told, row.text(6)?)
}

/// A service over the bank of a row.
fn started_in(row: &Row) -> Result<Service, CaseFault> {
    let bank = bank_in(row)?;
    started(row.alloc(), bank, Admit::all())
}

/// Plays a session of its own, and compares the statuses and notes of its entries.
pub(crate) fn try_notes(row: &Row) -> Result<u32, CaseFault> {
    let mut core = started_in(row)?;
    let played = play_notes(row, &mut core);
    let _bank = core.end();
    played?;
    Ok(1)
}

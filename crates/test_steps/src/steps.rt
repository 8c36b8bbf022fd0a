//! Steps as a table states them.

use crate::notes::try_notes;
use crate::stepping::{MOST_ENTRIES, Service, started, step, step_all};
use std::sync::Wait;
use std::thread::Threads;
use tbl_kinds::{Actor, Admit, Bytes, Name64, Outcome, Request};
use test_tables::{CaseFault, Row, RowCases, admit_of, new_bank, uplink_of};
use transcript::spell_entry;

/// How many bytes the field of a file's name has.
const NAME_FIELD: usize = 64;

/// The core that is played on, if one was started.
pub(crate) struct Steps {
    core: Option<Service>,
}

/// Ends a core that is played on no more.
fn close(core: Option<Service>) {
    if let Some(core) = core {
        let _bank = core.end();
    }
}

/// The file's name that is in a cell.
fn name_in(row: &Row, at: usize) -> Result<Name64, CaseFault> {
    let name = row.bytes(at)?;
    if name.len() > NAME_FIELD {
        return Err(CaseFault::Unreadable);
    }
    Ok(Name64::of(&name))
}

/// Uplinks a file, for which a record may have no room.
fn uplink_file(core: &mut Service, row: &Row) -> Result<bool, CaseFault> {
    let file = Request::File {
        file: uplink_of(row.alloc(), &name_in(row, 1)?, row.kept(2)?.bytes())?,
    };
    step(core, Actor::Ground, file)
}

/// Appends the spelling of the entry at a place. It may not tell of a call of the store.
fn tell_entry(core: &Service, place: usize, out: &mut Bytes) -> Result<(), CaseFault> {
    let entries = core.history();
    if place >= MOST_ENTRIES || entries.len() <= place {
        return Err(CaseFault::Unreadable);
    }
    let entry = &entries[place];
    if entry.given.outcome() != Outcome::Untouched {
        return Err(CaseFault::Unreadable);
    }
    let mut room = Vec::new(out.allocator());
    let spelling = spell_entry(&mut room, place as u32, entry)?;
    out.reserve(spelling.len())?;
    out.append(spelling);
    Ok(())
}

/// Whether the entries of a live service from a place on are those of a cell.
fn compare(row: &Row, at: usize, core: &Service, first: usize) -> Result<(), CaseFault> {
    if !core.is_live() {
        return Err(CaseFault::Unreadable);
    }
    let mut out = Bytes::make(row.alloc(), 0)?;
    for place in first..core.history().len() {
        tell_entry(core, place, &mut out)?;
    }
    row.same_bytes(at, out.bytes())
}

impl Steps {
    /// Before the first core.
    pub(crate) fn make() -> Steps {
        Steps { core: None }
    }

    fn start(&mut self, row: &Row, admit: Admit) -> Result<u32, CaseFault> {
        let core = started(row.alloc(), new_bank(row.alloc())?, admit)?;
        close(self.core.replace(core));
        Ok(0)
    }

    /// Starts a core with the lists of admitted spacecraft and processors that stand in two cells.
    fn start_with_lists(&mut self, row: &Row) -> Result<u32, CaseFault> {
        let admit = admit_of(&row.numbers(2)?, &row.numbers(3)?)?;
        self.start(row, admit)
    }

    /// After the last row.
    pub(crate) fn end(self) {
        let Steps { core } = self;
        close(core);
    }

    /// The core that was started last.
    fn core(&mut self) -> Result<&mut Service, CaseFault> {
        match &mut self.core {
            Some(core) => Ok(core),
            None => Err(CaseFault::Unreadable),
        }
    }

    /// Plays records, and compares the entries that they add.
    fn play(&mut self, row: &Row) -> Result<u32, CaseFault> {
        let records = row.bytes(1)?;
        let core = self.core()?;
        let first = core.history().len();
        let count = step_all(row.alloc(), core, &records)?;
        compare(row, 2, core, first)?;
        Ok(count)
    }

    /// Uplinks a file, and compares the entry that it adds.
    fn uplink(&mut self, row: &Row) -> Result<u32, CaseFault> {
        let core = self.core()?;
        let first = core.history().len();
        uplink_file(core, row)?;
        compare(row, 3, core, first)?;
        Ok(1)
    }
}

impl RowCases for Steps {
    /// The rows are `core | TITLE` for a core at its start, `core | TITLE | SPACECRAFT | PROCESSORS` for one with lists of those
    /// that are admitted, `play | RECORDS | ENTRIES` for steps of it, and
    /// `file | NAME | CONTENTS | ENTRY` for the uplink of a file. `notes | NAME | INPUT | BANK | BREAKS | BAD READS | NOTES` is a
    /// session of its own, over the bank that [`bank_in`](test_tables::bank_in) reads: of its entries the statuses and notes
    /// are told. No row starts a thread.
    fn try_row<R: Threads + Wait + Sync>(&mut self, _rt: &R, row: &Row) -> Result<u32, CaseFault> {
        match (row.text(0)?, row.len()) {
            ("core", 2) => self.start(row, Admit::all()),
            ("core", 4) => self.start_with_lists(row),
            ("play", 3) => self.play(row),
            ("file", 4) => self.uplink(row),
            ("notes", 7) => try_notes(row),
            _ => Err(CaseFault::Unreadable),
        }
    }
}

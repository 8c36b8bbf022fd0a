// The session without a reset: the writes of its bank, its critical tables, and their images.
use crate::play::{Fault, Room, Scenario, behind};
use crate::tables::Table;
use std::alloc::Global;
use tbl_fakes::{MemBank, Span};
use tbl_kinds::Entry;

/// What is known of a session before a reset is tried.
#[derive(Drop)]
pub(crate) struct Plan<'a> {
    pub(crate) scenario: &'a Scenario<'a>,
    /// Inside long writes each number of bytes is tried that this one divides.
    pub(crate) every: u32,
    /// Whether the session is played over two banks, the first of which dies, instead of with resets.
    pub(crate) is_mirrored: bool,
    pub(crate) writes: &'a [Span],
    pub(crate) history: &'a [Entry],
    pub(crate) tables: &'a [Table],
}

/// The first room that is tried.
const FIRST_ROOM: Room = Room {
    writes: 1_024,
    bytes: 1_048_576,
};

/// How often the room is doubled before it is given up.
const DOUBLINGS: u32 = 11;

/// The ranges of all writes of a bank; none if it had no room for its record of them.
fn spans_of(alloc: Global, bank: &MemBank) -> Result<Option<Vec<Span>>, Fault> {
    if bank.faults() == 0 {
        Ok(Some(bank.spans().to_vec(alloc)?))
    } else {
        Ok(None)
    }
}

/// The ranges of all writes of a session; none if its bank had no room for its record of them.
fn writes_in(scenario: &Scenario<'_>, count: usize) -> Result<Option<Vec<Span>>, Fault> {
    let bank = behind(scenario, count)?.end();
    spans_of(scenario.alloc, &bank)
}

/// A session with room in which a bank keeps a record of all its writes, and the ranges of these.
pub(crate) fn writes_of<'a>(
    alloc: Global,
    store: &'a [u8],
    records: &'a [u8],
    count: usize,
) -> Result<(Scenario<'a>, Vec<Span>), Fault> {
    let mut room = FIRST_ROOM;
    for _ in 0..DOUBLINGS {
        let scenario = Scenario {
            alloc,
            store,
            records,
            room,
        };
        if let Some(writes) = writes_in(&scenario, count)? {
            return Ok((scenario, writes));
        }
        room = room.doubled();
    }
    Err(Fault::Memory)
}

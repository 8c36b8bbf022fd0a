//! A gate that counts what threads do.

use std::alloc::Global;
use std::sync::atomic::{AtomicBool, AtomicU32, Ordering};
use tbl_kinds::Memory;
use tbl_outside::Gate;

/// The ground and 16 applications.
const ACTOR_COUNT: u8 = 17;

/// What a gate saw of the records of one actor.
#[derive(Drop)]
struct Tally {
    before: AtomicU32,
    after: AtomicU32,
    reading: AtomicU32,
    is_out_of_order: AtomicBool,
}

impl Tally {
    fn make() -> Tally {
        Tally {
            before: AtomicU32::new(0),
            after: AtomicU32::new(0),
            reading: AtomicU32::new(0),
            is_out_of_order: AtomicBool::new(false),
        }
    }

    /// Notes that a record came out of its order.
    fn note_order(&self, is_due: bool) {
        if !is_due {
            self.is_out_of_order.store(true, Ordering::SeqCst);
        }
    }

    /// Counts a record that is about to be played. All before it were played.
    fn count_before(&self, nth: u32) {
        let before = self.before.fetch_add(1, Ordering::SeqCst);
        let after = self.after.load(Ordering::SeqCst);
        self.note_order(before == nth && after == nth);
    }

    /// Counts a record that was played, which is the last that was about to be.
    fn count_after(&self, nth: u32) {
        let after = self.after.fetch_add(1, Ordering::SeqCst);
        let before = self.before.load(Ordering::SeqCst);
        self.note_order(after == nth && before == after.wrapping_add(1));
    }

    fn told(&self) -> Told {
        Told {
            before: self.before.load(Ordering::SeqCst),
            after: self.after.load(Ordering::SeqCst),
            reading: self.reading.load(Ordering::SeqCst),
            is_in_order: !self.is_out_of_order.load(Ordering::SeqCst),
        }
    }
}

/// What a gate saw of one actor.
#[derive(Clone, Copy)]
pub struct Told {
    /// How many records were about to be played.
    pub before: u32,
    /// How many were played.
    pub after: u32,
    /// How often the bytes of a pinned image were taken.
    pub reading: u32,
    /// Whether the records came by their numbers from 0 on, and each was played before the next one was about to be.
    pub is_in_order: bool,
}

/// Counts what it sees of each actor.
#[derive(Drop)]
pub struct CountingGate {
    /// In order of actors.
    tallies: Vec<Tally>,
}

impl CountingGate {
    /// Nothing was seen yet of the actors 0 to 16. An Err means out of memory.
    pub fn make(alloc: Global) -> Result<CountingGate, Memory> {
        let mut tallies = Vec::new(alloc);
        for _ in 0..ACTOR_COUNT {
            tallies.push(Tally::make())?;
        }
        Ok(CountingGate { tallies })
    }

    /// What was seen of each actor, in order of actors.
    pub fn told(&self, alloc: Global) -> Result<Vec<Told>, Memory> {
        let mut told = Vec::new(alloc);
        for tally in &self.tallies {
            told.push(tally.told())?;
        }
        Ok(told)
    }
}

impl Gate for CountingGate {
    fn before(&self, actor: u8, nth: u32) {
        if let Some(tally) = self.tallies.get(usize::from(actor)) {
            tally.count_before(nth);
        }
    }

    fn after(&self, actor: u8, nth: u32) {
        if let Some(tally) = self.tallies.get(usize::from(actor)) {
            tally.count_after(nth);
        }
    }

    fn reading(&self, actor: u8) {
        if let Some(tally) = self.tallies.get(usize::from(actor)) {
            tally.reading.fetch_add(1, Ordering::SeqCst);
        }
    }
}

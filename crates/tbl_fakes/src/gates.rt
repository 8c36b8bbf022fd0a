//! Gates at which threads wait for one another.

use std::sync::atomic::{AtomicBool, AtomicU32, Ordering};
use std::thread;
use tbl_outside::Gate;

/// A gate that returns at once.
#[derive(Clone, Copy)]
pub struct OpenGate;

impl Gate for OpenGate {
    fn before(&self, _actor: u8, _nth: u32) {}

    fn after(&self, _actor: u8, _nth: u32) {}

    fn reading(&self, _actor: u8) {}
}

/// How often a thread looks whether the other one has come as far.
const LOOKS: u32 = 1 << 24;

/// Looks until the other thread has come as far, or notes that it never did.
fn look_for(other: &AtomicBool, missed: &AtomicBool) {
    for _ in 0..LOOKS {
        if other.load(Ordering::SeqCst) {
            return;
        }
        thread::yield_now();
    }
    missed.store(true, Ordering::SeqCst);
}

/// Applications 1 and 2 each wait before their first record until the other one's thread has come as far. The records that
/// threads played are counted.
#[derive(Drop)]
pub struct MeetingGate {
    first: AtomicBool,
    second: AtomicBool,
    missed: AtomicBool,
    played: AtomicU32,
}

impl MeetingGate {
    /// Nobody has come yet.
    pub fn make() -> MeetingGate {
        MeetingGate {
            first: AtomicBool::new(false),
            second: AtomicBool::new(false),
            missed: AtomicBool::new(false),
            played: AtomicU32::new(0),
        }
    }

    fn meet(&self, mine: &AtomicBool, other: &AtomicBool) {
        mine.store(true, Ordering::SeqCst);
        look_for(other, &self.missed);
    }

    /// Whether both threads came while the other one waited.
    pub fn met(&self) -> bool {
        self.first.load(Ordering::SeqCst)
            && self.second.load(Ordering::SeqCst)
            && !self.missed.load(Ordering::SeqCst)
    }

    /// How many records threads played.
    pub fn played(&self) -> u32 {
        self.played.load(Ordering::SeqCst)
    }
}

impl Gate for MeetingGate {
    fn before(&self, actor: u8, nth: u32) {
        match (actor, nth) {
            (1, 0) => self.meet(&self.first, &self.second),
            (2, 0) => self.meet(&self.second, &self.first),
            _ => {}
        }
    }

    fn after(&self, _actor: u8, _nth: u32) {
        self.played.fetch_add(1, Ordering::SeqCst);
    }

    fn reading(&self, _actor: u8) {}
}

/// Application 1 waits, as it takes the bytes of a pinned image, until application 2 has played its first record; and application 2 waits
/// before that until application 1 takes bytes. So both go on only if no turn is held meanwhile.
#[derive(Drop)]
pub struct ReadingGate {
    reading: AtomicBool,
    after: AtomicBool,
    missed: AtomicBool,
    played: AtomicU32,
}

impl ReadingGate {
    /// Nobody has come yet.
    pub fn make() -> ReadingGate {
        ReadingGate {
            reading: AtomicBool::new(false),
            after: AtomicBool::new(false),
            missed: AtomicBool::new(false),
            played: AtomicU32::new(0),
        }
    }

    /// Whether application 2 played its first record while application 1 took bytes.
    pub fn met(&self) -> bool {
        self.reading.load(Ordering::SeqCst)
            && self.after.load(Ordering::SeqCst)
            && !self.missed.load(Ordering::SeqCst)
    }

    /// How many records threads played.
    pub fn played(&self) -> u32 {
        self.played.load(Ordering::SeqCst)
    }
}

impl Gate for ReadingGate {
    fn before(&self, actor: u8, nth: u32) {
        if actor == 2 && nth == 0 {
            look_for(&self.reading, &self.missed);
        }
    }

    fn after(&self, actor: u8, nth: u32) {
        self.played.fetch_add(1, Ordering::SeqCst);
        if actor == 2 && nth == 0 {
            self.after.store(true, Ordering::SeqCst);
        }
    }

    fn reading(&self, actor: u8) {
        if actor == 1 {
            self.reading.store(true, Ordering::SeqCst);
            look_for(&self.after, &self.missed);
        }
    }
}

/// The threads have their turns in the order of a list of actors: each waits before a record until its actor is the next one.
#[derive(Drop)]
pub struct OrderedGate {
    /// The actor of each turn.
    order: Vec<u8>,
    played: AtomicU32,
    missed: AtomicBool,
}

impl OrderedGate {
    /// No turn was taken yet.
    pub fn make(order: Vec<u8>) -> OrderedGate {
        OrderedGate {
            order,
            played: AtomicU32::new(0),
            missed: AtomicBool::new(false),
        }
    }

    /// Whether the next turn is of an actor.
    fn is_next(&self, actor: u8) -> bool {
        let played = self.played.load(Ordering::SeqCst);
        self.order.get(played as usize) == Some(&actor)
    }

    /// Whether no thread waited too long, and as many turns were taken as there are in the order.
    pub fn kept(&self) -> bool {
        let played = self.played.load(Ordering::SeqCst);
        played as usize == self.order.len() && !self.missed.load(Ordering::SeqCst)
    }
}

impl Gate for OrderedGate {
    fn before(&self, actor: u8, _nth: u32) {
        for _ in 0..LOOKS {
            if self.is_next(actor) || self.missed.load(Ordering::SeqCst) {
                return;
            }
            thread::yield_now();
        }
        self.missed.store(true, Ordering::SeqCst);
    }

    fn after(&self, _actor: u8, _nth: u32) {
        self.played.fetch_add(1, Ordering::SeqCst);
    }

    fn reading(&self, _actor: u8) {}
}

//! The lock, and its five kinds of atomic step: take the turn, put the value back, make, split and join a seat.

ghost use Rattle.std.specs.Prelude.{◌≡◌, ℕ, ◌+◌, ◌-◌, ◌<◌, ◌≤◌, ◌/◌, List, [], ◌∷◌, ◌++◌, Option, Some, None, IfOk, IfErr, length, replicate, take, drop};
ghost use Rattle.turn_lock.specs.Turns.{Since, Idle, Holds, Knows};

use crate::rule::{Halve, LastOff, Place, PutBack, TakeTurn, TurnRule, Turns, Unite, View};
use atomic_table::{Refused, Table};
use std::alloc::Global;
use std::snapshot::Snapshot;
use std::sync::Wait;
use std::thread;
use std::time::Duration;

/// How often a waiter gives its processor away and tries again before it sleeps.
const YIELDS: u32 = 20;

/// How many microseconds a waiter sleeps before it tries again.
const NAP: u64 = 100;

/// The lock. A turn moves the value out and back, so a large one belongs into a box.
#[derive(Drop)]
pub struct TurnLock<T: Turns> {
    pub table: Table<Option<T>, View<T>, Snapshot<T>, TurnRule, Global>,
    pub ghost sized: { (table.shared.table_id.words ≡ 1) × (table.shared.table_id.slots ≡ 1) },
}

impl<T: Turns> TurnLock<T> {
    /// A lock with this value in it, and the seat of all actors. An Err means out of memory, with the value.
    pub fn make(alloc: Global, value: T) -> Result<(TurnLock<T>, Place<T>), T>
        ensures first { IfOk result (λ made. made.0.table.shared.key.value ≡ value) }
        ensures seat { IfOk result (λ made. (made.1.table_id ≡ made.0.table.shared.table_id) × Idle made.1.me 0 (replicate T.actors value)) }
        ensures err { IfErr result (λ back. back ≡ value) }
    {
        let first = Snapshot::of(&value);
        // Room for the slot comes first: a push that failed would drop the value.
        let Ok(mut slots) = Vec::with_capacity(alloc, 1) else {
            return Err(value);
        };
        slots.push_reserved(Some(value));
        match Table::new(alloc, &[0], slots, &first) {
            Ok((table, seat)) => Ok((TurnLock { table }, seat)),
            Err(Refused { slots: mut back }) => {
                let Some(Some(value)) = back.pop() else {
                    unreachable!()
                };
                Err(value)
            }
        }
    }

    /// Takes the turn, and the value with it. Waits while another seat has it: it yields its processor some twenty times, and then
    /// sleeps for 100 microseconds at a time. So a thread that waits leaves its processor to the one that has the turn, whatever
    /// their priorities are. Since an actor of the seat saw the value last, only others had turns.
    pub fn take<R: Wait>(&self, rt: &R, seat: &mut Place<T>) -> T
        requires own { seat.old.table_id ≡ self.now.table.shared.table_id }
        requires idle { Idle seat.old.me seat.old.me.0.from seat.old.me.0.seen }
        requires some { 0 < length seat.old.me.0.seen }
        ensures own { seat.new.table_id ≡ seat.old.table_id }
        ensures holds { Holds seat.new.me seat.old.me.0.from seat.old.me.0.seen result }
        ensures knows { Knows T.moves seat.old.me.0.from seat.old.me.0.seen result }
    {
        let shared = &self.table.shared;
        let mut tries: u32 = 0;
        for _ in rt.forever() {
            if shared.compare_exchange::<TakeTurn>(seat, 0, 0, 1) == 0 {
                return shared.exchange(seat, 0, None).unwrap();
            }
            if tries < YIELDS {
                tries += 1;
                thread::yield_now();
            } else {
                shared.park_timeout(rt, 0, 1, Duration::from_micros(NAP));
            }
        }
        unreachable!()
    }

    /// Puts the value back after a turn of the seat's one actor, who has seen it so from then on.
    pub fn put_back(&self, seat: &mut Place<T>, before: &Snapshot<T>, value: T)
        requires own { seat.old.table_id ≡ self.now.table.shared.table_id }
        requires holds { Holds seat.old.me seat.old.me.0.from seat.old.me.0.seen before.now.value }
        requires one { length seat.old.me.0.seen ≡ 1 }
        requires moves { T.moves before.now.value seat.old.me.0.from value }
        ensures own { seat.new.table_id ≡ seat.old.table_id }
        ensures idle { Idle seat.new.me seat.old.me.0.from (value ∷ []) }
    {
        let shared = &self.table.shared;
        drop(shared.exchange(seat, 0, Some(value)));
        shared.store::<PutBack>(seat, 0, 0);
    }

    /// Splits off the seat of the upper half of the actors.
    pub fn split(&self, seat: &mut Place<T>) -> Place<T>
        requires own { seat.old.table_id ≡ self.now.table.shared.table_id }
        requires idle { Idle seat.old.me seat.old.me.0.from seat.old.me.0.seen }
        ensures own { (seat.new.table_id ≡ seat.old.table_id) × (result.table_id ≡ seat.old.table_id) }
        ensures left { Idle seat.new.me seat.old.me.0.from (take (length seat.old.me.0.seen / 2) seat.old.me.0.seen) }
        ensures right { Idle result.me (seat.old.me.0.from + length seat.old.me.0.seen / 2) (drop (length seat.old.me.0.seen / 2) seat.old.me.0.seen) }
    {
        self.table.shared.split_seat::<Halve>(seat)
    }

    /// Splits off the seat of the last actor.
    pub fn split_last(&self, seat: &mut Place<T>) -> Place<T>
        requires own { seat.old.table_id ≡ self.now.table.shared.table_id }
        requires idle { Idle seat.old.me seat.old.me.0.from seat.old.me.0.seen }
        ensures own { (seat.new.table_id ≡ seat.old.table_id) × (result.table_id ≡ seat.old.table_id) }
        ensures left { Idle seat.new.me seat.old.me.0.from (take (length seat.old.me.0.seen - 1) seat.old.me.0.seen) }
        ensures right { Idle result.me (seat.old.me.0.from + (length seat.old.me.0.seen - 1)) (drop (length seat.old.me.0.seen - 1) seat.old.me.0.seen) }
    {
        self.table.shared.split_seat::<LastOff>(seat)
    }

    /// Takes in the seat of the next actors.
    pub fn join(&self, seat: &mut Place<T>, other: Place<T>)
        requires own { (seat.old.table_id ≡ self.now.table.shared.table_id) × (other.table_id ≡ self.now.table.shared.table_id) }
        requires idle { Idle seat.old.me seat.old.me.0.from seat.old.me.0.seen × Idle other.me other.me.0.from other.me.0.seen }
        requires meet { other.me.0.from ≡ seat.old.me.0.from + length seat.old.me.0.seen }
        ensures own { seat.new.table_id ≡ seat.old.table_id }
        ensures idle { Idle seat.new.me seat.old.me.0.from (seat.old.me.0.seen ++ other.me.0.seen) }
    {
        self.table.shared.join_seat::<Unite>(seat, other);
    }

    /// Takes the value out for good. It doesn't wait: whoever has the seat of all actors knows that nobody has the turn.
    pub fn close(self, seat: Place<T>) -> T
        requires own { seat.table_id ≡ self.table.shared.table_id }
        requires idle { Idle seat.me 0 seat.me.0.seen }
        requires all { length seat.me.0.seen ≡ T.actors }
        ensures since { Since T.moves self.table.shared.key.value result }
        ensures knows { Knows T.moves 0 seat.me.0.seen result }
    {
        let TurnLock { table } = self;
        let mut closed = table.close_with(seat);
        let value = closed.take(0).unwrap();
        closed.free();
        value
    }
}

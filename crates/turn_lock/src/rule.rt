//! What the lock keeps, as a rule of its table: one word, which is 0 while nobody has the turn, one slot, in which the value lies
//! then, and seats, each with actors of its own and with the value as each of them saw it last.

use atomic_table::{Join, Play, Seat, Split, TableRule};
use std::collections::LinkedList;
use std::snapshot::Snapshot;

/// A value at which actors take turns.
pub trait Turns: Drop {
    ghost use Rattle.std.specs.Prelude.{ℕ};

    /// How many actors there are: their numbers are those below it.
    ghost actors: { ℕ };

    /// What one turn of an actor may make of the value.
    ghost moves: { Self → ℕ → Self → Type 0 };
}

/// What a seat knows: the value that it took out, and for each of its actors, which are those from `from` on, the value that this
/// actor saw last. Only contracts see it.
pub struct View<T> {
    pub taken: Option<T>,
    pub from: u8,
    pub seen: LinkedList<T>,
}

/// A seat at the lock, for some actors.
pub type Place<T> = Seat<Option<T>, View<T>>;

/// The rule of the table.
pub struct TurnRule;

impl<T: Turns> TableRule<Option<T>, View<T>, Snapshot<T>> for TurnRule {
    ghost use Rattle.turn_lock.specs.Turns.{Kept, all_seats};

    ghost holds = { λ first s. Kept T.moves T.actors first.value s };

    ghost first = { λ first. all_seats T.actors first.value };
}

/// A try to take the turn: where nobody has it, the value leaves the slot.
pub(crate) struct TakeTurn;

impl<T: Turns> Play<Option<T>, View<T>> for TakeTurn {
    ghost use Rattle.turn_lock.specs.Turns.{Takes};

    ghost then = { Takes T.moves };
}

/// The value is put back after a turn of the seat's actor.
pub(crate) struct PutBack;

impl<T> Play<Option<T>, View<T>> for PutBack {
    ghost use Rattle.turn_lock.specs.Turns.{Gives};

    ghost then = { Gives };
}

/// A seat is split in two: one keeps the lower half of its actors, the new one has the upper half.
pub(crate) struct Halve;

impl<T> Split<View<T>> for Halve {
    ghost use Rattle.turn_lock.specs.Turns.{lower, upper};
    ghost use Rattle.std.specs.Prelude.{length, ◌/◌, ◌+◌};

    ghost left = { λ v. lower (length v.seen / 2) v };

    ghost right = { λ v. upper (length v.seen / 2) v };
}

/// The last actor of a seat gets a seat of its own.
pub(crate) struct LastOff;

impl<T> Split<View<T>> for LastOff {
    ghost use Rattle.turn_lock.specs.Turns.{lower, upper};
    ghost use Rattle.std.specs.Prelude.{length, ◌-◌};

    ghost left = { λ v. lower (length v.seen - 1) v };

    ghost right = { λ v. upper (length v.seen - 1) v };
}

/// Two seats become one, which has the actors of both.
pub(crate) struct Unite;

impl<T> Join<View<T>> for Unite {
    ghost use Rattle.turn_lock.specs.Turns.{joined, spent};

    ghost both = { joined };

    ghost spent = { spent };
}

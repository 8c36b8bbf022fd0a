//! The turns of one actor at the lock.

ghost use Rattle.std.specs.Prelude.{◌<◌, Some, None};
ghost use Rattle.tbl_crew.specs.Moves.{HaveReadLent};
ghost use Rattle.tbl_crew.specs.Reads.{IsTakenOf};
ghost use Rattle.tbl_crew.specs.Seats.{MayPlay, ArePlayed, IsAtWork, HasWorked};
ghost use Rattle.tbl_session.specs.Actors.{actor_count};

use crate::held::{Crew, ReadPlan, Turn};
use crate::scripts::ACTOR_COUNT;
use crate::taken::{Taken, keep, take_ahead};
use std::alloc::Global;
use std::snapshot::Snapshot;
use std::sync::Wait;
use tbl_outside::{Bank, Gate, Validator};
use tbl_registry::Pin;
use turn_lock::{Place, TurnLock};

/// What the workers of a crew share: the handle by which they start threads and wait, their memory, the lock, the gate, and how many
/// requests each actor has.
#[derive(Drop)]
pub(crate) struct Workplace<'a, B: Bank, C: Validator, G, R> {
    pub(crate) rt: &'a R,
    pub(crate) alloc: Global,
    pub(crate) lock: &'a TurnLock<Crew<B, C>>,
    pub(crate) gate: &'a G,
    pub(crate) counts: &'a [u32; ACTOR_COUNT],
}

/// A turn that plays the actor's next request. Returns it, and the bytes that the actor reads after that.
fn plain_turn<B: Bank, C: Validator, G: Gate, R: Wait>(
    room: &Workplace<'_, B, C, G, R>,
    place: &mut Place<Crew<B, C>>,
    actor: u8,
    pins: &[Pin],
) -> (Turn, Option<ReadPlan>)
    requires work { IsAtWork room.now actor pins.now None place.old }
    ensures worked { HasWorked B.Bank C.verdict actor pins.now result place.old place.new }
{
    let mut crew = room.lock.take(room.rt, place);
    let before = Snapshot::of(&crew);
    let turn = crew.turn(actor);
    let next = crew.next_read(actor);
    room.lock.put_back(place, &before, crew);
    (turn, next)
}

/// A turn that plays a Read whose bytes were taken from a lent image. Returns it, and the bytes that the actor reads after that.
fn read_turn<B: Bank, C: Validator, G: Gate, R: Wait>(
    room: &Workplace<'_, B, C, G, R>,
    place: &mut Place<Crew<B, C>>,
    actor: u8,
    pins: &[Pin],
    taken: Taken<'_>,
) -> (Turn, Option<ReadPlan>)
    requires work { IsAtWork room.now actor pins.now (Some taken.read) place.old }
    requires taken { IsTakenOf pins.now taken.read taken.pin.now taken.slice.list }
    ensures worked { HasWorked B.Bank C.verdict actor pins.now result place.old place.new }
    // As long as the pin lives, the reply is the buffer that was taken before this turn.
    ensures lent { HaveReadLent B.Bank C.verdict actor (record { pin = taken.entry.pin.now; slice = taken.entry.slice; turn = result.0 }) place.old.me.0.seen place.new.me.0.seen }
{
    let Taken {
        read: _,
        pin,
        slice,
    } = taken;
    let mut crew = room.lock.take(room.rt, place);
    let before = Snapshot::of(&crew);
    let turn = crew.turn_read(actor, pin, slice);
    let next = crew.next_read(actor);
    room.lock.put_back(place, &before, crew);
    (turn, next)
}

/// One turn. What it reads of a lent image is taken before, without the lock.
pub(crate) fn one_turn<B: Bank, C: Validator, G: Gate, R: Wait>(
    room: &Workplace<'_, B, C, G, R>,
    place: &mut Place<Crew<B, C>>,
    actor: u8,
    pins: &[Pin],
    plan: Option<ReadPlan>,
) -> (Turn, Option<ReadPlan>)
    requires work { IsAtWork room.now actor pins.now plan place.old }
    ensures worked { HasWorked B.Bank C.verdict actor pins.now result place.old place.new }
{
    if let Some(read) = plan {
        if let Ok(Some(taken)) = take_ahead(room.alloc, pins, read) {
            room.gate.reading(actor);
            return read_turn(room, place, actor, pins, taken);
        }
    }
    plain_turn(room, place, actor, pins)
}

/// Plays an actor's script from its seat, a turn each request: to its end, unless a step answers a fault.
pub(crate) fn play_script<B: Bank, C: Validator, G: Gate, R: Wait>(
    room: &Workplace<'_, B, C, G, R>,
    mut place: Place<Crew<B, C>>,
    actor: u8,
) -> Place<Crew<B, C>>
    requires within { actor < actor_count }
    requires play { MayPlay room.now place actor 1 }
    ensures played { ArePlayed place result actor 1 }
{
    // The images that were lent to the actor, and what it reads next: nobody else changes either.
    let mut pins: Vec<Pin> = Vec::new(room.alloc);
    let mut plan: Option<ReadPlan> = None;
    let count = room.counts[usize::from(actor)];
    'turns: for nth in 0..count {
        room.gate.before(actor, nth);
        let (turn, next) = one_turn(room, &mut place, actor, pins.as_slice(), plan);
        plan = next;
        match turn {
            Turn::Pinned(pin) => keep(&mut pins, pin),
            Turn::Played | Turn::PinMemory => {}
            Turn::Ended | Turn::Done => return place,
        }
        room.gate.after(actor, nth);
    }
    place
}

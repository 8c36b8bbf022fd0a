//! Seats at a service, one for each actor.

ghost use Rattle.std.specs.Prelude.{◌≡◌, ℕ, None};
ghost use Rattle.tbl_kinds.specs.Records.{actor_number};
ghost use Rattle.tbl_session.specs.Actors.{actor_of};
ghost use Rattle.tbl_live.specs.Seats.{IsSeat, IsLeft, seat_of};

use crate::cores::ServiceCore;
use crate::served::Served;
use std::marker::Model;
use tbl_core::StepFault;
use tbl_kinds::Actor;
use tbl_outside::{Bank, Validator};
use turn_lock::Place;

/// A seat at a service: whoever has it calls as its actor. Contracts see it as its actor, its calls, and what its last call saw
/// under the lock.
#[derive(Drop)]
pub struct Seat<B: Bank, C: Validator, K: ServiceCore<B, C>> {
    pub(crate) place: Place<Served<B, C, K>>,
    pub(crate) actor: Actor,
    pub(crate) saw: u64,
    pub(crate) met: Option<StepFault>,
}

impl<B: Bank, C: Validator, K: ServiceCore<B, C>> Model for Seat<B, C, K> {
    ghost use Rattle.tbl_live.specs.Seats.{SeatView, IsSeat, seat_of};

    ghost Value = { SeatView B C };

    ghost view = { λ s. seat_of s.place.table_id s.actor s.place.me.0.seen s.saw s.met };

    ghost invariant = { λ s. IsSeat s.place.me s.actor s.saw s.met };
}

/// The seats of a service: that of the ground, and those of applications 1 to 16 in this order.
#[derive(Drop)]
pub struct Seats<B: Bank, C: Validator, K: ServiceCore<B, C>> {
    pub ground: Seat<B, C, K>,
    pub apps: Vec<Seat<B, C, K>>,
}

/// The actor of a number.
fn actor_at(number: u8) -> Actor
    ensures { result ≡ actor_of number }
{
    if number == 0 {
        Actor::Ground
    } else {
        Actor::App(number)
    }
}

impl<B: Bank, C: Validator, K: ServiceCore<B, C>> Seat<B, C, K> {
    /// The seat of the actor of this number, before its first call.
    pub(crate) fn make(place: Place<Served<B, C, K>>, number: u8) -> Seat<B, C, K>
        requires { IsSeat place.me (actor_of number) 0 None }
        ensures { result ≡ seat_of place.table_id (actor_of number) place.me.0.seen 0 None }
    {
        Seat {
            place,
            actor: actor_at(number),
            saw: 0,
            met: None,
        }
    }

    /// Its place, with what its actor saw last.
    pub(crate) fn leave(self) -> Place<Served<B, C, K>>
        ensures { IsLeft self.of (actor_number self.actor) self result }
    {
        let Seat { place, .. } = self;
        place
    }
}

//! One request of one actor, as contracts see it in a list.

ghost use Rattle.std.specs.Prelude.{◌≡◌};
ghost use Rattle.tbl_drill.specs.Drill.{ground as from_ground, app as from_app};

use std::marker::Model;
use tbl_kinds::{Actor, Request};

/// One request of one actor.
#[derive(Drop)]
pub(crate) struct Record {
    pub(crate) actor: Actor,
    pub(crate) request: Request,
}

impl Model for Record {
    ghost use Rattle.tbl_kinds.specs.Records.{Pair};

    ghost Value = { Pair };

    ghost view = { λ r. record { actor = r.actor; request = r.request } };
}

/// A request of the ground.
pub(crate) fn ground(request: Request) -> Record
    ensures { result ≡ from_ground request }
{
    Record {
        actor: Actor::Ground,
        request,
    }
}

/// A request of the application of this number.
pub(crate) fn app(number: u8, request: Request) -> Record
    ensures { result ≡ from_app number request }
{
    Record {
        actor: Actor::App(number),
        request,
    }
}

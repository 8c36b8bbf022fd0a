//! Scripts that are played without the lock.

ghost use Rattle.std.specs.Prelude.{◌≢◌, ◌<◌, ◌≤◌};
ghost use Rattle.tbl_session.specs.Actors.{actor_count};
ghost use Rattle.table_watch.specs.Watching.{watcher};
ghost use Rattle.tbl_crew.specs.Leading.{LeadsOn};
ghost use Rattle.tbl_crew.specs.Moves.{AllEnded, HasEnded, PlaysRest};
ghost use Rattle.tbl_crew.specs.Watching.{StaysWatched};

use crate::held::{Crew, Turn};
use tbl_outside::{Bank, Validator};

/// Plays what is left to an actor.
pub(crate) fn play_script_rest<B: Bank, C: Validator>(crew: &mut Crew<B, C>, actor: u8)
    requires actor { actor < actor_count }
    ensures rest { PlaysRest B.Bank C.verdict crew.old crew.new }
    ensures ended { HasEnded crew.new actor }
    // What the watcher has seen of it, if it is another one.
    ensures watched { actor ≢ watcher → StaysWatched B.Bank C.verdict crew.old crew.new }
{
    'requests: loop {
        match crew.turn(actor) {
            Turn::Played | Turn::Pinned(_) | Turn::PinMemory => {}
            Turn::Ended | Turn::Done => return,
        }
    }
}

/// Plays what is left to so many actors, in their order.
pub(crate) fn play_rest<B: Bank, C: Validator>(crew: &mut Crew<B, C>, count: u8)
    requires within { count ≤ actor_count }
    ensures leads { LeadsOn B.Bank C.verdict crew.old crew.new }
    ensures ended { AllEnded count crew.new }
    ensures watched { count ≤ watcher → StaysWatched B.Bank C.verdict crew.old crew.new }
{
    'actors: for actor in 0..count {
        play_script_rest(crew, actor);
    }
}

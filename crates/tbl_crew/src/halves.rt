//! A thread for each actor: the actors are halved until one is left.

ghost use Rattle.std.specs.Prelude.{◌≡◌, ◌+◌, ◌-◌, ◌/◌, ◌≤◌, take, drop};
ghost use Rattle.std.specs.List.{list_all};
ghost use Rattle.std.specs.Thread.{IsSync, IsSend};
ghost use Rattle.tbl_kinds.specs.Names.{is_zero};
ghost use Rattle.tbl_session.specs.Actors.{actor_count};
ghost use Rattle.tbl_crew.specs.Seats.{MayPlay, ArePlayed};

use crate::held::Crew;
use crate::scripts::ACTOR_COUNT;
use crate::turns::{Workplace, play_script};
use std::sync::Wait;
use std::thread::{Threads, join};
use tbl_outside::{Bank, Gate, Validator};
use turn_lock::Place;

/// The seats of the lower half of so many actors, from one on, and of the others. What each of them has still to ask is known of both.
fn halve<B: Bank, C: Validator, G: Gate, R: Wait>(
    room: &Workplace<'_, B, C, G, R>,
    mut place: Place<Crew<B, C>>,
    from: u8,
    count: u8,
) -> (Place<Crew<B, C>>, Place<Crew<B, C>>)
    requires play { MayPlay room.now place from count }
    ensures low { MayPlay room.now result.0 from (count / 2) }
    ensures high { MayPlay room.now result.1 (from + count / 2) (count - count / 2) }
{
    let other = room.lock.split(&mut place);
    (place, other)
}

/// Whether none of so many actors, from one on, asks anything.
fn ask_nothing(counts: &[u32; ACTOR_COUNT], from: u8, count: u8) -> bool
    requires { from + count ≤ actor_count }
    ensures { result ≡ list_all is_zero (take count (drop from counts.now)) }
{
    let (_, others) = counts.split_at(usize::from(from));
    let (these, _) = others.split_at(usize::from(count));
    these.iter().all(|asked| *asked == 0)
}

/// Plays the scripts of so many actors, from one on. Each that asks anything has a thread, except one, which the caller plays. If a thread
/// can't be started the caller plays what it was for, after its own.
#[cycle(halves)]
pub(crate) fn play_range<
    B: Bank + Send,
    C: Validator + Send,
    G: Gate + Sync,
    R: Threads + Wait + Sync,
>(
    room: &Workplace<'_, B, C, G, R>,
    place: Place<Crew<B, C>>,
    from: u8,
    count: u8,
) -> Place<Crew<B, C>>
    requires within { from + count ≤ actor_count }
    requires play { MayPlay room.now place from count }
    ensures played { ArePlayed place result from count }
{
    if count == 0 {
        return place;
    }
    if count == 1 {
        return play_script(room, place, from);
    }
    // The actors are halved, and not taken one by one: so each thread starts at most five others, and waits for them.
    let low = count / 2;
    let high = count - low;
    let middle = from + low;
    let (place, other) = halve(room, place, from, count);
    if ask_nothing(room.counts, from, low) || ask_nothing(room.counts, middle, high) {
        // One of the halves takes no time, so the other one needs no thread of its own.
        let mut place = play_range(room, place, from, low);
        let other = play_range(room, other, middle, high);
        room.lock.join(&mut place, other);
        return place;
    }
    let upper = move || -> Place<Crew<B, C>>
        requires { IsSync R.row × IsSync G.row × IsSend B.row × IsSend C.row × (middle + high ≤ actor_count)
            × MayPlay room.now other middle high }
        ensures { ArePlayed other result middle high }
    { play_range(room, other, middle, high) };
    let lower = move || -> Place<Crew<B, C>>
        requires { IsSync R.row × IsSync G.row × IsSend B.row × IsSend C.row × (from + low ≤ actor_count)
            × MayPlay room.now place from low }
        ensures { ArePlayed place result from low }
    { play_range(room, place, from, low) };
    let (other, mut place) = join(room.rt, upper, lower);
    room.lock.join(&mut place, other);
    place
}

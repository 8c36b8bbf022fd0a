//! A crew whose last application watches: its worker looks at each image that its calls pin.

ghost use Rattle.std.specs.Prelude.{◌≡◌, ◌≤◌, List, [], take, drop, replicate, OnOk, OnErr, None, false};
ghost use Rattle.std.specs.Thread.{IsSync, IsSend};
ghost use Rattle.tbl_kinds.specs.Check.{check16};
ghost use Rattle.tbl_kinds.specs.declared.request.Request.{Request};
ghost use Rattle.tbl_session.specs.Actors.{actor_count};
ghost use Rattle.tbl_session.specs.Openings.{Opening};
ghost use Rattle.tbl_history.specs.Serving.{Serves};
ghost use Rattle.table_watch.specs.Looks.{looked};
ghost use Rattle.table_watch.specs.Watching.{watcher};
ghost use Rattle.tbl_crew.specs.CrewView.{CrewView};
ghost use Rattle.tbl_crew.specs.Leading.{LeadsFrom};
ghost use Rattle.tbl_crew.specs.Moves.{HasEnded, HaveEnded, PlaysRest};
ghost use Rattle.tbl_crew.specs.Reads.{Keeps};
ghost use Rattle.tbl_crew.specs.Scripts.{AllFit, AreCounted, request_count};
ghost use Rattle.tbl_kinds.specs.Records.{record_limit};
ghost use Rattle.tbl_crew.specs.Seats.{SitsAs, MayPlay, ArePlayed, first_crew};
ghost use Rattle.tbl_crew.specs.Watchers.{MayWatch, MayWatchAll, WatchesOn};
ghost use Rattle.tbl_crew.specs.Watching.{IsWatched, HasWatched, HasLooked, HaveLooked, WatchesAll, end_of};
ghost use Rattle.turn_lock.specs.Turns.{Idle};

use crate::halves::play_range;
use crate::held::{Crew, ReadPlan, Turn};
use crate::rest::play_rest;
use crate::scripts::{ACTOR_COUNT, Scripts};
use crate::taken::keep;
use crate::turns::{Workplace, one_turn};
use crate::workers::unplayed;
use std::alloc::Global;
use std::sync::Wait;
use std::thread::{Threads, join};
use table_watch::Watch;
use tbl_core::{Core, StepFault};
use tbl_kinds::Memory;
use tbl_outside::{Bank, Gate, Validator};
use tbl_registry::Pin;
use turn_lock::{Place, TurnLock};

/// The application that watches: the last one.
const WATCHER: u8 = 16;

/// Why a watched crew ended before all was played.
#[derive(Clone, Copy, Debug, PartialEq, Eq)]
pub enum WatchEnd {
    /// A step answered this fault.
    Step(StepFault),
    /// Memory ran out for a look of the watcher, or its image had as many owners as can be counted.
    Memory,
}

/// Looks at an image that was lent to the watcher, without the lock, and keeps its pin. An Err means that memory ran out for the look:
/// the watch is as it was.
fn look_and_keep<G: Gate>(
    gate: &G,
    watch: &mut Watch,
    pins: &mut Vec<Pin>,
    pin: Pin,
) -> Result<(), Memory>
    ensures looked { OnOk result (watch.new ≡ looked watch.old pin.place pin.name (check16 pin.bytes)) }
    ensures err { OnErr result (watch.new ≡ watch.old) }
    ensures keeps { Keeps pins.old.items pins.new.items pin }
{
    gate.reading(WATCHER);
    watch.look(&pin)?;
    keep(pins, pin);
    Ok(())
}

/// Plays the watcher's script from its seat like that of any actor, and looks at each image that it is lent. If memory runs out for a look
/// it ends early, and only this look is missing.
fn watch_script<B: Bank, C: Validator, G: Gate, R: Wait>(
    room: &Workplace<'_, B, C, G, R>,
    mut place: Place<Crew<B, C>>,
    mut watch: Watch,
) -> (Place<Crew<B, C>>, Watch, Result<(), Memory>)
    requires watch { MayWatch B.Bank C.verdict room.now place watch }
    ensures watched { WatchesOn B.Bank C.verdict room.now place result }
{
    let mut pins: Vec<Pin> = Vec::new(room.alloc);
    let mut plan: Option<ReadPlan> = None;
    let count = room.counts[usize::from(WATCHER)];
    'turns: for nth in 0..count {
        room.gate.before(WATCHER, nth);
        let (turn, next) = one_turn(room, &mut place, WATCHER, pins.as_slice(), plan);
        plan = next;
        match turn {
            Turn::Pinned(pin) => {
                if look_and_keep(room.gate, &mut watch, &mut pins, pin).is_err() {
                    return (place, watch, Err(Memory));
                }
            }
            Turn::Played => {}
            Turn::PinMemory => return (place, watch, Err(Memory)),
            Turn::Ended | Turn::Done => return (place, watch, Ok(())),
        }
        room.gate.after(WATCHER, nth);
    }
    (place, watch, Ok(()))
}

/// The seats of the other actors and of the watcher. What each of them has still to ask is known of both.
fn seats_of<B: Bank, C: Validator, G: Gate, R: Wait>(
    room: &Workplace<'_, B, C, G, R>,
    mut place: Place<Crew<B, C>>,
    watch: &Watch,
) -> (Place<Crew<B, C>>, Place<Crew<B, C>>)
    requires all { MayWatchAll B.Bank C.verdict room.now place watch.now }
    ensures others { MayPlay room.now result.0 0 watcher }
    ensures last { MayWatch B.Bank C.verdict room.now result.1 watch.now }
{
    let last = room.lock.split_last(&mut place);
    (place, last)
}

/// Plays each script in a thread of its own; the watcher's thread looks at the images that it is lent.
fn watch_range<B: Bank + Send, C: Validator + Send, G: Gate + Sync, R: Threads + Wait + Sync>(
    room: &Workplace<'_, B, C, G, R>,
    place: Place<Crew<B, C>>,
    watch: Watch,
) -> (Place<Crew<B, C>>, Watch, Result<(), Memory>)
    requires all { MayWatchAll B.Bank C.verdict room.now place watch }
    ensures sits { SitsAs place result.0 0 actor_count }
    ensures others { HaveEnded 0 (take watcher result.0.me.0.seen) }
    ensures ended { OnOk result.2 (HaveEnded 0 result.0.me.0.seen) }
    ensures looked { HaveLooked B.Bank C.verdict (first_crew room.now) result.2 result.1 (drop watcher result.0.me.0.seen) }
{
    let (place, last) = seats_of(room, place, &watch);
    let others = move || -> Place<Crew<B, C>>
        requires { IsSync R.row × IsSync G.row × IsSend B.row × IsSend C.row × MayPlay room.now place 0 watcher }
        ensures { ArePlayed place result 0 watcher }
    { play_range(room, place, 0, WATCHER) };
    let watching = move || -> (Place<Crew<B, C>>, Watch, Result<(), Memory>)
        requires { MayWatch B.Bank C.verdict room.now last watch }
        ensures { WatchesOn B.Bank C.verdict room.entry.now last result }
    { watch_script(room, last, watch) };
    let (mut place, (last, watch, looked)) = join(room.rt, others, watching);
    room.lock.join(&mut place, last);
    (place, watch, looked)
}

/// Plays each script in a thread of its own, up to where steps and looks end, and takes the crew out of the lock.
fn watch_beside<B: Bank + Send, C: Validator + Send, G: Gate + Sync, R: Threads + Wait + Sync>(
    rt: &R,
    alloc: Global,
    lock: TurnLock<Crew<B, C>>,
    place: Place<Crew<B, C>>,
    counts: &[u32; ACTOR_COUNT],
    gate: &G,
    watch: Watch,
) -> (Crew<B, C>, Watch, Result<(), Memory>)
    requires own { place.table_id ≡ lock.table.shared.table_id }
    requires seat { Idle place.me 0 (replicate actor_count lock.table.shared.key.value) }
    requires counted { AreCounted counts.now lock.table.shared.key.value.left }
    requires empty { lock.table.shared.key.value.core.entries ≡ [] }
    requires watch { watch ≡ [] }
    ensures watches { WatchesAll B.Bank C.verdict lock.table.shared.key.value result.2 result.1 result.0 }
{
    let room = Workplace {
        rt,
        alloc,
        lock: &lock,
        gate,
        counts,
    };
    let (place, watch, looked) = watch_range(&room, place, watch);
    (lock.close(place), watch, looked)
}

/// Plays what is left to the watcher, which looks at each image that it is lent.
fn watch_script_rest<B: Bank, C: Validator>(
    crew: &mut Crew<B, C>,
    watch: &mut Watch,
) -> Result<(), Memory>
    ensures rest { PlaysRest B.Bank C.verdict crew.old crew.new }
    ensures ended { OnOk result (HasEnded crew.new watcher) }
    ensures looked { (first : CrewView B C) → HasWatched B.Bank C.verdict first watch.old crew.old → HasLooked B.Bank C.verdict first result watch.new crew.new }
{
    'requests: loop {
        match crew.turn(WATCHER) {
            Turn::Pinned(pin) => {
                watch.look(&pin)?;
            }
            Turn::Played => {}
            Turn::PinMemory => return Err(Memory),
            Turn::Ended | Turn::Done => return Ok(()),
        }
    }
}

/// Plays what is left, in order of actors; the watcher is the last one.
fn watch_rest<B: Bank, C: Validator>(crew: &mut Crew<B, C>, watch: &mut Watch) -> Result<(), Memory>
    requires empty { crew.old.core.entries ≡ [] }
    requires watch { watch.old ≡ [] }
    ensures watches { WatchesAll B.Bank C.verdict crew.old result watch.new crew.new }
{
    play_rest(crew, WATCHER);
    watch_script_rest(crew, watch)
}

/// How a watched crew ended. The fault of a step comes before that of a look.
fn end_of(fault: Option<StepFault>, looked: Result<(), Memory>) -> Option<WatchEnd>
    ensures { result ≡ end_of fault looked }
{
    match (fault, looked) {
        (Some(cause), _) => Some(WatchEnd::Step(cause)),
        (None, Err(_)) => Some(WatchEnd::Memory),
        (None, Ok(())) => None,
    }
}

/// Ends a watched crew.
fn end_watched<B: Bank, C: Validator>(
    crew: Crew<B, C>,
    watch: Watch,
    looked: Result<(), Memory>,
) -> (Core<B, C>, Watch, Option<WatchEnd>)
    ensures history { (first : CrewView B C) → WatchesAll B.Bank C.verdict first looked watch crew
        → (o : Opening B C) (scripts : List (List Request)) → LeadsFrom B.Bank C.verdict o scripts first → IsWatched B.Bank C.verdict o scripts result.2 result.1 result.0 }
{
    let (core, fault) = crew.end();
    (core, watch, end_of(fault, looked))
}

/// What comes of a watched crew for which there is no memory: nothing is played, and nothing was looked at.
fn unwatched<B: Bank, C: Validator>(
    core: Core<B, C>,
    scripts: &Scripts,
    watch: Watch,
) -> (Core<B, C>, Watch, Option<WatchEnd>)
    requires live { core.state.ended ≡ false }
    requires empty { core.entries ≡ [] }
    requires watch { watch ≡ [] }
    ensures history { (o : Opening B C) → Serves B.Bank C.verdict o core → IsWatched B.Bank C.verdict o scripts.now result.2 result.1 result.0 }
{
    let (core, fault) = unplayed(core, scripts);
    (core, watch, end_of(fault, Ok(())))
}

/// Plays each script of a crew in a thread of its own; if there is no memory for the lock, the caller plays them. The watcher looks at each
/// image that it is lent.
fn watch_all<B: Bank + Send, C: Validator + Send, G: Gate + Sync, R: Threads + Wait + Sync>(
    rt: &R,
    alloc: Global,
    crew: Crew<B, C>,
    counts: &[u32; ACTOR_COUNT],
    gate: &G,
    watch: Watch,
) -> (Core<B, C>, Watch, Option<WatchEnd>)
    requires counted { AreCounted counts.now crew.left }
    requires empty { crew.core.entries ≡ [] }
    requires watch { watch ≡ [] }
    ensures history { (o : Opening B C) (scripts : List (List Request)) → LeadsFrom B.Bank C.verdict o scripts crew → IsWatched B.Bank C.verdict o scripts result.2 result.1 result.0 }
{
    match TurnLock::make(alloc, crew) {
        Ok((lock, place)) => {
            let (crew, watch, looked) = watch_beside(rt, alloc, lock, place, counts, gate, watch);
            end_watched(crew, watch, looked)
        }
        Err(mut crew) => {
            let mut watch = watch;
            let looked = watch_rest(&mut crew, &mut watch);
            end_watched(crew, watch, looked)
        }
    }
}

/// Plays the actors' scripts at the same time, like `crew`. Application 16 is the watcher: at each of its calls that gets the address of a
/// table (`CFE_TBL_GetAddress`), its thread looks at the image that was lent, without the lock. If memory runs out for a look, the watcher
/// plays no further request, and the other actors play their scripts to the end: only this look is missing.
pub fn crew_watched<B: Bank + Send, C: Validator + Send, G: Gate + Sync, R: Threads + Wait + Sync>(
    rt: &R,
    alloc: Global,
    core: Core<B, C>,
    scripts: Scripts,
    gate: &G,
    watch: Watch,
) -> (Core<B, C>, Watch, Option<WatchEnd>)
    requires live { core.state.ended ≡ false }
    requires empty { core.entries ≡ [] }
    requires fits { AllFit scripts }
    requires few { request_count scripts ≤ record_limit }
    requires watch { watch ≡ [] }
    ensures history { (o : Opening B C) → Serves B.Bank C.verdict o core → IsWatched B.Bank C.verdict o scripts result.2 result.1 result.0 }
{
    let counts = scripts.counts();
    match Crew::open(alloc, core, scripts) {
        Ok(crew) => watch_all(rt, alloc, crew, &counts, gate, watch),
        Err((core, scripts)) => unwatched(core, &scripts, watch),
    }
}

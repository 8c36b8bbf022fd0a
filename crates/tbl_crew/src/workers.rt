//! A crew: each actor's script is played by a thread of its own.

ghost use Rattle.std.specs.Prelude.{◌≡◌, ◌≤◌, List, [], replicate, false};
ghost use Rattle.tbl_kinds.specs.declared.request.Request.{Request};
ghost use Rattle.tbl_session.specs.Actors.{actor_count};
ghost use Rattle.tbl_session.specs.Openings.{Opening};
ghost use Rattle.tbl_history.specs.Serving.{Serves};
ghost use Rattle.tbl_crew.specs.Histories.{OneHistory};
ghost use Rattle.tbl_crew.specs.Leading.{LeadsFrom, LeadsOn};
ghost use Rattle.tbl_crew.specs.Moves.{AllEnded};
ghost use Rattle.tbl_crew.specs.Scripts.{AllFit, AreCounted, request_count};
ghost use Rattle.tbl_kinds.specs.Records.{record_limit};
ghost use Rattle.turn_lock.specs.Turns.{Idle};

use crate::halves::play_range;
use crate::held::Crew;
use crate::rest::play_rest;
use crate::scripts::{ACTOR_COUNT, Scripts};
use crate::turns::Workplace;
use std::alloc::Global;
use std::sync::Wait;
use std::thread::Threads;
use tbl_core::{Core, StepFault};
use tbl_outside::{Bank, Gate, Validator};
use turn_lock::{Place, TurnLock};

/// Plays each script in a thread of its own, to its end, unless a step answers a fault.
fn play_beside<B: Bank + Send, C: Validator + Send, G: Gate + Sync, R: Threads + Wait + Sync>(
    rt: &R,
    alloc: Global,
    lock: TurnLock<Crew<B, C>>,
    place: Place<Crew<B, C>>,
    counts: &[u32; ACTOR_COUNT],
    gate: &G,
) -> Crew<B, C>
    requires own { place.table_id ≡ lock.table.shared.table_id }
    requires seat { Idle place.me 0 (replicate actor_count lock.table.shared.key.value) }
    requires counted { AreCounted counts.now lock.table.shared.key.value.left }
    ensures leads { LeadsOn B.Bank C.verdict lock.table.shared.key.value result }
    ensures ended { AllEnded actor_count result }
{
    let room = Workplace {
        rt,
        alloc,
        lock: &lock,
        gate,
        counts,
    };
    let place = play_range(&room, place, 0, ACTOR_COUNT as u8);
    lock.close(place)
}

/// What comes of a crew for which there is no memory: nothing is played. That is a fault unless no actor has a request.
pub(crate) fn unplayed<B: Bank, C: Validator>(
    core: Core<B, C>,
    scripts: &Scripts,
) -> (Core<B, C>, Option<StepFault>)
    requires live { core.state.ended ≡ false }
    requires empty { core.entries ≡ [] }
    ensures core { result.0 ≡ core }
    ensures history { (o : Opening B C) → Serves B.Bank C.verdict o core → OneHistory B.Bank C.verdict o scripts.now result.1 core }
{
    if scripts.is_empty() {
        (core, None)
    } else {
        (core, Some(StepFault::Memory))
    }
}

/// Plays each script of a crew in a thread of its own; if there is no memory for the lock, the caller plays them.
fn play_all<B: Bank + Send, C: Validator + Send, G: Gate + Sync, R: Threads + Wait + Sync>(
    rt: &R,
    alloc: Global,
    crew: Crew<B, C>,
    counts: &[u32; ACTOR_COUNT],
    gate: &G,
) -> (Core<B, C>, Option<StepFault>)
    requires counted { AreCounted counts.now crew.left }
    ensures history { (o : Opening B C) (scripts : List (List Request)) → LeadsFrom B.Bank C.verdict o scripts crew → OneHistory B.Bank C.verdict o scripts result.1 result.0 }
{
    match TurnLock::make(alloc, crew) {
        Ok((lock, place)) => play_beside(rt, alloc, lock, place, counts, gate).end(),
        Err(mut crew) => {
            play_rest(&mut crew, ACTOR_COUNT as u8);
            crew.end()
        }
    }
}

/// Plays the actors' scripts at the same time, with a thread for each but one, which the caller plays. If there is no memory for the lock,
/// the caller plays them all. The entries are in the order of the turns. If a step answers a fault, no further request is played.
pub fn crew<B: Bank + Send, C: Validator + Send, G: Gate + Sync, R: Threads + Wait + Sync>(
    rt: &R,
    alloc: Global,
    core: Core<B, C>,
    scripts: Scripts,
    gate: &G,
) -> (Core<B, C>, Option<StepFault>)
    requires live { core.state.ended ≡ false }
    requires empty { core.entries ≡ [] }
    requires fits { AllFit scripts }
    requires few { request_count scripts ≤ record_limit }
    ensures history { (o : Opening B C) → Serves B.Bank C.verdict o core → OneHistory B.Bank C.verdict o scripts result.1 result.0 }
{
    let counts = scripts.counts();
    match Crew::open(alloc, core, scripts) {
        Ok(crew) => play_all(rt, alloc, crew, &counts, gate),
        Err((core, scripts)) => unplayed(core, &scripts),
    }
}

//! Plays one request of a stream.

ghost use Rattle.std.specs.Prelude.{◌≡◌, ◌≤◌, [], true, false, IfOk, IfErr, OnErr};
ghost use Rattle.tbl_kinds.specs.Requests.{Fits};
ghost use Rattle.tbl_core.specs.Answers.{IsBegun};
ghost use Rattle.tbl_core.specs.Service.{HasRoom};
ghost use Rattle.tbl_stream.specs.Playing.{Answers, Goes, Refuses};
ghost use Rattle.tbl_stream.specs.Standing.{HasMetLimit, first_of};

use crate::standing::Standing;
use tbl_core::{Engine, StepFault};
use tbl_kinds::{Actor, Entry, Memory, Request};
use tbl_outside::{Bank, Validator};

/// Plays the request of an entry. `Ok(None)` if a further one may follow, `Ok(Some(..))` if a boot in it failed or was stopped.
#[inline(always)]
pub(crate) fn step<B: Bank, C: Validator>(
    engine: &mut Engine<B, C>,
    entry: &mut Entry,
) -> Result<Option<Standing>, Memory>
    requires begun { IsBegun entry.old }
    requires fits { Fits entry.old.actor entry.old.request }
    requires live { engine.old.state.ended ≡ false }
    requires room { HasRoom engine.old entry.old.request }
    ensures answers { IfOk result (Answers B.Bank C.verdict engine.old engine.new (entry.old.actor, entry.old.request) entry.new) }
    ensures err { OnErr result (engine.new ≡ engine.old) }
{
    match engine.play(entry) {
        Err(StepFault::Memory) => Err(Memory),
        Err(StepFault::BootFault) => Ok(Some(Standing::BootFault)),
        Err(StepFault::BootStopped) => Ok(Some(Standing::BootStopped)),
        Ok(()) => Ok(None),
    }
}

/// Whether the engine plays this request. How many images its tables have had is counted again if the bound on that is too great.
fn make_room<B: Bank, C: Validator>(engine: &mut Engine<B, C>, request: &Request) -> bool
    ensures room { result ≡ true → HasRoom engine.new request.now }
    ensures full { result ≡ false → HasMetLimit engine.new }
    ensures goes { Goes B.Bank C.verdict engine.old engine.new [] }
    ensures ended { engine.new.state.ended ≡ engine.old.state.ended }
{
    if engine.limit_met(request).is_none() {
        return true;
    }
    engine.recount();
    engine.limit_met(request).is_none()
}

/// Plays a request. Returns the entry that it became, and what it leaves to be reported once that is written; or the standing of the stream
/// if it wasn't played.
pub(crate) fn answer<B: Bank, C: Validator>(
    engine: &mut Engine<B, C>,
    actor: Actor,
    request: Request,
) -> Result<(Entry, Option<Standing>), Standing>
    requires fits { Fits actor request }
    requires live { engine.old.state.ended ≡ false }
    ensures answers { IfOk result (λ done. Answers B.Bank C.verdict engine.old engine.new (actor, request) done.0 done.1) }
    ensures refuses { IfErr result (Refuses B.Bank C.verdict engine.old engine.new) }
{
    let has_room = make_room(engine, &request);
    let Ok(mut entry) = engine.begin(actor, request) else {
        return Err(Standing::Memory);
    };
    if !has_room {
        return Err(Standing::Full);
    }
    match step(engine, &mut entry) {
        Ok(ending) => Ok((entry, ending)),
        Err(Memory) => Err(Standing::Memory),
    }
}

/// What a record leaves to be reported: that its entry wasn't written whole, or else what its step left.
pub(crate) fn first_stop(stop: Option<Standing>, ending: Option<Standing>) -> Option<Standing>
    ensures { result ≡ first_of stop ending }
{
    match stop {
        Some(_) => stop,
        None => ending,
    }
}

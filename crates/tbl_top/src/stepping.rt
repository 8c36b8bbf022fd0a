//! Plays one request of a session.

ghost use Rattle.std.specs.Prelude.{◌≡◌, IfOk, OnOk, OnErr};
ghost use Rattle.tbl_kinds.specs.Requests.{Fits};
ghost use Rattle.tbl_history.specs.Serving.{Continues};
ghost use Rattle.tbl_stream.specs.Standing.{IsEnding, TellsBoot, standing_after};
ghost use Rattle.tbl_top.specs.Drilling.{AddsEntry, MayPlayOne};

use tbl_core::{Core, StepFault};
use tbl_kinds::{Actor, Memory, Request};
use tbl_outside::{Bank, Validator};
use tbl_stream::Standing;

/// Plays a request. `Ok(None)` if a further one may follow, `Ok(Some(..))` if a boot in it failed or was stopped.
#[inline(always)]
pub(crate) fn step<B: Bank, C: Validator>(
    core: &mut Core<B, C>,
    actor: Actor,
    request: Request,
) -> Result<Option<Standing>, Memory>
    requires fits { Fits actor request }
    requires may_play { MayPlayOne core.old }
    ensures adds { OnOk result (AddsEntry core.old.entries core.new.entries actor request) }
    ensures continues { OnOk result (Continues B.Bank C.verdict core.old core.new) }
    ensures ending { IfOk result IsEnding }
    ensures boot { IfOk result (λ stop. TellsBoot (standing_after stop) core.new.state.ended core.new.entries) }
    ensures err { OnErr result (core.new ≡ core.old) }
{
    match core.step(actor, request) {
        Err(StepFault::Memory) => Err(Memory),
        Err(StepFault::BootFault) => Ok(Some(Standing::BootFault)),
        Err(StepFault::BootStopped) => Ok(Some(Standing::BootStopped)),
        Ok(()) => Ok(None),
    }
}

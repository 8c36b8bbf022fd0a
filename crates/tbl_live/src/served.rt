//! What the lock holds, and one call under it.

ghost use Rattle.std.specs.Prelude.{◌≡◌, ℕ, ◌<◌, ◌≤◌, None, false, length, MatchOption, IfOk, IfErr, IfSome};
ghost use Rattle.request_effects.specs.Effects.{reply_limit};
ghost use Rattle.tbl_core.specs.Ended.{OnPlayed};
ghost use Rattle.tbl_core.specs.Service.{IsOfPin};
ghost use Rattle.tbl_live.specs.ServedView.{IsServed, served_view};
ghost use Rattle.tbl_live.specs.Cores.{asked};
ghost use Rattle.tbl_live.specs.Answers.{kept_of, MayStep, IsRefusal, with_later, HasRoomFor, KeepsRoom, Appends, GivesLast, GivesOutcome, MayAnswer, Answered};
ghost use Rattle.tbl_live.specs.Lent.{LendsNow};

use crate::cores::{ServiceCore, Taken};
use crate::receipts::{CallFault, Receipt};
use std::alloc::{AllocFailed, Global};
use std::marker::{Model, PhantomData};
use tbl_core::StepFault;
use tbl_kinds::{Actor, Bytes, Memory, Request};
use tbl_outside::{Bank, Validator};
use tbl_registry::Pin;
use turn_lock::Turns;

/// A reply of at least so many bytes is appended after the lock is free. To append a shorter one takes less time than to own it too.
const LATER: usize = 1_024;

/// The core, the fault that a step answered, and how many entries the history had as the service opened. The core lies in a box,
/// since a turn at the lock moves this value out and back.
#[derive(Drop)]
pub struct Served<B: Bank, C: Validator, K: ServiceCore<B, C>> {
    core: Box<K>,
    fault: Option<StepFault>,
    base: u64,
    of: PhantomData<(B, C)>,
}

impl<B: Bank, C: Validator, K: ServiceCore<B, C>> Model for Served<B, C, K> {
    ghost use Rattle.tbl_live.specs.ServedView.{ServedView, IsServed, served_view};

    ghost Value = { ServedView B C };

    ghost view = { λ s. served_view (K.core s.core.value) s.fault s.base };

    ghost invariant = { λ s. IsServed K.bound.limit (served_view (K.core s.core.value) s.fault s.base) };
}

impl<B: Bank, C: Validator, K: ServiceCore<B, C>> Turns for Served<B, C, K> {
    ghost use Rattle.tbl_session.specs.Actors.{actor_count};
    ghost use Rattle.tbl_live.specs.Moves.{Moves};

    ghost actors = { actor_count };

    ghost moves = { Moves B.Bank C.verdict };
}

impl<B: Bank, C: Validator, K: ServiceCore<B, C>> Served<B, C, K> {
    /// A live core, as it is now. An Err means out of memory, with the core.
    pub(crate) fn open(alloc: Global, core: K) -> Result<Served<B, C, K>, K>
        requires live { (K.core core).state.ended ≡ false }
        ensures opened { IfOk result (λ served. served ≡ served_view (K.core core) None (length (K.core core).entries)) }
        ensures err { IfErr result (λ back. back ≡ core) }
    {
        let base = core.count();
        match Box::new(alloc, core) {
            Ok(core) => Ok(Served {
                core,
                fault: None,
                base,
                of: PhantomData,
            }),
            Err(AllocFailed { value }) => Err(value),
        }
    }

    /// The core as it is.
    pub(crate) fn end(self) -> K
        ensures core { K.core result ≡ self.core }
        ensures served { IsServed K.bound.limit self }
    {
        Box::into_inner(self.core)
    }

    /// How many entries the history has.
    pub(crate) fn count(&self) -> u64
        ensures { result ≡ length self.now.core.entries }
    {
        self.core.as_ref().count()
    }

    /// The fault that a step answered.
    pub(crate) fn fault(&self) -> Option<StepFault>
        ensures { result ≡ self.now.fault }
    {
        self.fault
    }

    /// Lends the image that a handle pins. An Err means that it has as many owners as can be counted.
    pub(crate) fn lend(&self, handle: u16) -> Result<Option<Pin>, Memory>
        ensures lent { IfOk result (LendsNow handle self.now.core) }
        ensures pin { IfOk result (λ lent. IfSome lent (λ pin. IsOfPin pin self.now.core)) }
        ensures served { IsServed K.bound.limit self.now }
    {
        self.core.as_ref().lend(handle)
    }

    /// Plays one request of an actor, unless a step answered a fault before or there is no room; a Read with what was taken of a
    /// lent image, if anything was. The bytes of the reply are appended to `out`, or are handed out to be appended to it later.
    pub(crate) fn answer(
        &mut self,
        actor: Actor,
        request: Request,
        taken: Option<Taken<'_>>,
        out: &mut Bytes,
    ) -> (Result<Receipt, CallFault>, Option<Bytes>)
        requires { MayAnswer self.old.core (asked actor request taken) out.old }
        ensures { Answered B.Bank C.verdict K.bound (asked actor request taken.entry) (self.old, out.old) (self.new, out.new) result }
    {
        answer_fields::<B, C, K>(
            self.core.as_mut(),
            &mut self.fault,
            self.base,
            actor,
            request,
            taken,
            out,
        )
    }
}

/// Why no request is played.
fn refusal<B: Bank, C: Validator, K: ServiceCore<B, C>>(
    core: &mut K,
    fault: Option<StepFault>,
    request: &Request,
) -> Option<CallFault>
    ensures same { K.core core.new ≡ K.core core.old }
    ensures refusal { MatchOption result (MayStep K.bound.limit fault (K.core core.new) × K.may_play core.new request.now) (IsRefusal K.bound fault (K.core core.new)) }
{
    if let Some(cause) = fault {
        return Some(CallFault::Ended(cause));
    }
    match core.refusal(request) {
        Some(count) => Some(CallFault::Full { count }),
        None => None,
    }
}

/// Appends the bytes of a reply if they are few, and else gives a further owner of them, if they can have one.
fn append_or_own(reply: &Bytes, out: &mut Bytes) -> Option<Bytes>
    requires { length reply.now.list ≤ out.old.spare }
    ensures { Appends out.old out.new reply.now.list result }
{
    let bytes = reply.bytes();
    if bytes.len() >= LATER {
        if let Ok(owner) = reply.copy() {
            return Some(owner);
        }
    }
    out.append(bytes);
    None
}

/// Appends what was left to be appended.
pub(crate) fn append_later(later: Option<Bytes>, out: &mut Bytes)
    requires { HasRoomFor later out.old }
    ensures bytes { out.new.list ≡ with_later out.old.list later }
    ensures room { KeepsRoom out.old out.new }
{
    if let Some(bytes) = later {
        out.append(bytes.bytes());
    }
}

/// The receipt of the last entry. The bytes of its reply are appended, or are handed out to be appended later.
fn take_last<B: Bank, C: Validator, K: ServiceCore<B, C>>(
    core: &K,
    out: &mut Bytes,
) -> (Receipt, Option<Bytes>)
    requires some { 0 < length (K.core core.now).entries }
    requires room { reply_limit ≤ out.old.spare }
    ensures { GivesLast (K.core core.now).entries out.old out.new result }
{
    let place = core.count() - 1;
    let entry = core.last();
    let later = append_or_own(&entry.reply.bytes, out);
    let receipt = Receipt {
        place,
        actor: entry.actor,
        status: entry.reply.status,
        detail: entry.reply.detail,
    };
    (receipt, later)
}

/// What a call answers after its step.
fn outcome<B: Bank, C: Validator, K: ServiceCore<B, C>>(
    core: &K,
    done: Result<(), StepFault>,
    out: &mut Bytes,
) -> (Result<Receipt, CallFault>, Option<Bytes>)
    requires some { OnPlayed done (0 < length (K.core core.now).entries) }
    requires room { reply_limit ≤ out.old.spare }
    ensures { GivesOutcome (K.core core.now).entries done out.old out.new result }
{
    match done {
        Ok(()) => {
            let (receipt, later) = take_last::<B, C, K>(core, out);
            (Ok(receipt), later)
        }
        Err(StepFault::Memory) => (Err(CallFault::Memory), None),
        Err(StepFault::BootFault) => {
            let (_receipt, later) = take_last::<B, C, K>(core, out);
            (Err(CallFault::Step(StepFault::BootFault)), later)
        }
        Err(StepFault::BootStopped) => {
            let (_receipt, later) = take_last::<B, C, K>(core, out);
            (Err(CallFault::Step(StepFault::BootStopped)), later)
        }
    }
}

/// The fault that is kept of a step.
fn kept(done: Result<(), StepFault>) -> Option<StepFault>
    ensures { result ≡ kept_of done }
{
    match done {
        Ok(()) | Err(StepFault::Memory) => None,
        Err(StepFault::BootFault) => Some(StepFault::BootFault),
        Err(StepFault::BootStopped) => Some(StepFault::BootStopped),
    }
}

/// Plays one request, and keeps a fault that its step answers.
fn answer_fields<B: Bank, C: Validator, K: ServiceCore<B, C>>(
    core: &mut K,
    fault: &mut Option<StepFault>,
    base: u64,
    actor: Actor,
    request: Request,
    taken: Option<Taken<'_>>,
    out: &mut Bytes,
) -> (Result<Receipt, CallFault>, Option<Bytes>)
    requires served { IsServed K.bound.limit (served_view (K.core core.old) fault.old base) }
    requires call { MayAnswer (K.core core.old) (asked actor request taken) out.old }
    ensures served { IsServed K.bound.limit (served_view (K.core core.new) fault.new base) }
    ensures answered { Answered B.Bank C.verdict K.bound (asked actor request taken.entry) (served_view (K.core core.old) fault.old base, out.old)
        (served_view (K.core core.new) fault.new base, out.new) result }
{
    if let Some(cause) = refusal::<B, C, K>(core, *fault, &request) {
        return (Err(cause), None);
    }
    let done = core.play(actor, request, taken);
    *fault = kept(done);
    outcome::<B, C, K>(core, done, out)
}

//! What the lock holds, and one turn of an actor.

ghost use Rattle.std.specs.Prelude.{◌≡◌, ◌<◌, ◌≤◌, [], None, false, IfOk, IfErr};
ghost use Rattle.tbl_session.specs.Actors.{actor_count, actor_of};
ghost use Rattle.tbl_session.specs.Openings.{Opening};
ghost use Rattle.tbl_history.specs.Serving.{Serves};
ghost use Rattle.tbl_crew.specs.CrewView.{MayGoOn, crew_of};
ghost use Rattle.tbl_crew.specs.Leading.{LeadsFrom};
ghost use Rattle.tbl_crew.specs.Scripts.{AllFit, request_count, script_of};
ghost use Rattle.tbl_kinds.specs.Records.{record_limit};
ghost use Rattle.tbl_crew.specs.Reads.{plan_of, IsNextSlice, last_got, PinsLast, Lends};
ghost use Rattle.table_watch.specs.Watching.{handle_got};
ghost use Rattle.tbl_crew.specs.Turns.{TakesTurn, ReadsLent};
ghost use Rattle.tbl_core.specs.Lent.{StillPins};
ghost use Rattle.tbl_core.specs.Service.{IsOfPin};
ghost use Rattle.tbl_model.specs.Whole.{is_done};

use crate::scripts::Scripts;
use std::alloc::{AllocFailed, Global};
use std::marker::Model;
use tbl_core::{Core, StepFault};
use tbl_kinds::{Actor, Bytes, Entry, Request, Status};
use tbl_outside::{Bank, Validator};
use tbl_registry::Pin;

/// What came of a turn.
#[derive(Drop)]
pub enum Turn {
    /// The actor's next request was played, and its entry added. It got no address.
    Played,
    /// The actor's next request was played, and it got the address of a table, whose image is lent. The pin has the entry's place.
    Pinned(Pin),
    /// The actor's next request was played, and it got the address of a table. Its image couldn't be lent: it has as many owners as
    /// can be counted.
    PinMemory,
    /// A step answered a fault, in this turn or an earlier one, and no request is played any more.
    Ended,
    /// All requests of the actor were played before.
    Done,
}

/// The bytes that an actor's next request reads: of the image that the handle pins, so many from an offset on.
#[derive(Clone, Copy, Debug, PartialEq, Eq)]
pub struct ReadPlan {
    pub handle: u16,
    pub offset: u32,
    pub len: u32,
}

/// The core, why it plays no further request, and what each actor still has to request. The core lies in a box, since a turn at the
/// lock moves this value out and back.
#[derive(Drop)]
pub struct Crew<B: Bank, C: Validator> {
    core: Box<Core<B, C>>,
    fault: Option<StepFault>,
    left: Scripts,
}

impl<B: Bank, C: Validator> Model for Crew<B, C> {
    ghost use Rattle.tbl_crew.specs.CrewView.{CrewView, MayGoOn};

    ghost Value = { CrewView B C };

    ghost view = { λ c. record { core = c.core.value; fault = c.fault; left = c.left } };

    ghost invariant = { λ c. MayGoOn (record { core = c.core.value; fault = c.fault; left = c.left }) };
}

impl<B: Bank, C: Validator> turn_lock::Turns for Crew<B, C> {
    ghost use Rattle.tbl_session.specs.Actors.{actor_count};
    ghost use Rattle.tbl_crew.specs.Moves.{Moves};

    ghost actors = { actor_count };

    ghost moves = { Moves B.Bank C.verdict };
}

impl<B: Bank, C: Validator> Crew<B, C> {
    /// A crew over a service that played nothing yet. An Err means out of memory, with the service and the scripts.
    pub fn open(
        alloc: Global,
        core: Core<B, C>,
        scripts: Scripts,
    ) -> Result<Crew<B, C>, (Core<B, C>, Scripts)>
        requires live { core.state.ended ≡ false }
        requires empty { core.entries ≡ [] }
        requires fits { AllFit scripts }
        requires few { request_count scripts ≤ record_limit }
        ensures core { IfOk result (λ crew. crew.core ≡ core) }
        ensures fault { IfOk result (λ crew. crew.fault ≡ None) }
        ensures left { IfOk result (λ crew. crew.left ≡ scripts) }
        // Whatever the service began with, the crew represents it, with these scripts and nothing played.
        ensures stands { IfOk result (λ crew. (o : Opening B C) → Serves B.Bank C.verdict o core → LeadsFrom B.Bank C.verdict o scripts crew) }
        ensures err { IfErr result (λ back. (back.0 ≡ core) × (back.1 ≡ scripts)) }
    {
        match Box::new(alloc, core) {
            Ok(core) => Ok(Crew {
                core,
                fault: None,
                left: scripts,
            }),
            Err(AllocFailed { value }) => Err((value, scripts)),
        }
    }

    /// The service.
    pub fn core(&self) -> &Core<B, C>
        ensures { result.now ≡ self.now.core }
    {
        self.core.as_ref()
    }

    /// The service as it is, and the fault that a step answered.
    pub fn end(self) -> (Core<B, C>, Option<StepFault>)
        ensures core { result.0 ≡ self.core }
        ensures fault { result.1 ≡ self.fault }
        ensures goes_on { MayGoOn self }
    {
        (Box::into_inner(self.core), self.fault)
    }

    /// Plays the next request of an actor: 0 is the ground, 1 to 16 are the applications. If the step answers a fault, this turn and all
    /// later ones have ended.
    pub fn turn(&mut self, actor: u8) -> Turn
        requires actor { actor < actor_count }
        ensures turn { TakesTurn B.Bank C.verdict self.old self.new actor result }
    {
        let core = self.core.as_mut();
        turn_fields(core, &mut self.fault, &mut self.left, actor)
    }

    /// The bytes that the actor's next request reads; None if it isn't a Read. Only the actor's own turns change the answer.
    pub fn next_read(&self, actor: u8) -> Option<ReadPlan>
        requires actor { actor < actor_count }
        ensures { result ≡ plan_of (script_of self.now.left actor) }
    {
        match self.left.first(actor) {
            Some(
                Request::Read {
                    handle,
                    offset,
                    len,
                },
            ) => Some(ReadPlan {
                handle: *handle,
                offset: *offset,
                len: *len,
            }),
            _ => None,
        }
    }

    /// Plays the actor's next request like `turn`, which is a Read by the handle of a lent image, with the bytes that were taken
    /// of it before. If the handle still pins by the call that the image was lent for, the reply is this very buffer.
    pub fn turn_read(&mut self, actor: u8, pin: &Pin, slice: Bytes) -> Turn
        requires actor { actor < actor_count }
        requires pin { IsOfPin pin.now self.old.core }
        requires slice { IsNextSlice pin.now (script_of self.old.left actor) slice.list }
        ensures turn { TakesTurn B.Bank C.verdict self.old self.new actor result }
        // Over any bank: what was handed in is what is answered, or the Read is refused.
        ensures lent { StillPins pin.now self.old.core.gets → ReadsLent self.old.core self.new.core slice result }
    {
        read_fields(
            self.core.as_mut(),
            &mut self.fault,
            &mut self.left,
            actor,
            pin,
            slice,
        )
    }
}

/// Whether a call with this status did what was requested.
fn is_done(status: Status) -> bool
    ensures { result ≡ is_done status }
{
    status == Status::SUCCESS || status == Status::INFO_UPDATED
}

/// The handle by which an entry got an address.
fn got_address(entry: &Entry) -> Option<u16>
    ensures { result ≡ handle_got entry.now }
{
    match &entry.request {
        Request::Get { handle } if is_done(entry.reply.status) => Some(*handle),
        _ => None,
    }
}

/// The handle by which the last entry got an address.
fn last_address(entries: &[Entry]) -> Option<u16>
    ensures { result ≡ last_got entries.now }
{
    match entries.last() {
        Some(entry) => got_address(entry),
        None => None,
    }
}

/// What came of a turn whose request was played. If it got an address, the image is lent.
#[tactic(auto, using(crate::proofs::LendingLemmas::lent_last))]
fn played<B: Bank, C: Validator>(core: &Core<B, C>) -> Turn
    requires pins { PinsLast core.now }
    ensures { Lends core.now result }
{
    let Some(handle) = last_address(core.history()) else {
        return Turn::Played;
    };
    match core.lend(handle) {
        Ok(Some(pin)) => Turn::Pinned(pin),
        Ok(None) => unreachable!(),
        Err(_) => Turn::PinMemory,
    }
}

/// The actor of a number.
fn actor_of(number: u8) -> Actor
    ensures { result ≡ actor_of number }
{
    if number == 0 {
        Actor::Ground
    } else {
        Actor::App(number)
    }
}

/// Plays the next request, and keeps the fault.
fn turn_fields<B: Bank, C: Validator>(
    core: &mut Core<B, C>,
    fault: &mut Option<StepFault>,
    left: &mut Scripts,
    actor: u8,
) -> Turn
    requires actor { actor < actor_count }
    requires goes_on { MayGoOn (crew_of core.old fault.old left.old) }
    ensures goes_on { MayGoOn (crew_of core.new fault.new left.new) }
    ensures turn { TakesTurn B.Bank C.verdict (crew_of core.old fault.old left.old) (crew_of core.new fault.new left.new) actor result }
{
    if fault.is_some() {
        return Turn::Ended;
    }
    let Some(request) = left.next(actor) else {
        return Turn::Done;
    };
    match core.step(actor_of(actor), request) {
        Ok(()) => played(core),
        Err(cause) => {
            *fault = Some(cause);
            Turn::Ended
        }
    }
}

/// Plays the next request, a Read, with bytes that were taken of a lent image, and keeps the fault.
fn read_fields<B: Bank, C: Validator>(
    core: &mut Core<B, C>,
    fault: &mut Option<StepFault>,
    left: &mut Scripts,
    actor: u8,
    pin: &Pin,
    slice: Bytes,
) -> Turn
    requires actor { actor < actor_count }
    requires goes_on { MayGoOn (crew_of core.old fault.old left.old) }
    requires pin { IsOfPin pin.now core.old }
    requires slice { IsNextSlice pin.now (script_of left.old actor) slice.list }
    ensures goes_on { MayGoOn (crew_of core.new fault.new left.new) }
    ensures turn { TakesTurn B.Bank C.verdict (crew_of core.old fault.old left.old) (crew_of core.new fault.new left.new) actor result }
    ensures lent { StillPins pin.now core.old.gets → ReadsLent core.old core.new slice result }
{
    if fault.is_some() {
        return Turn::Ended;
    }
    let Some(request) = left.next(actor) else {
        return Turn::Done;
    };
    match core.step_read(actor_of(actor), request, pin, slice) {
        Ok(()) => played(core),
        Err(cause) => {
            *fault = Some(cause);
            Turn::Ended
        }
    }
}

//! What a service may be opened over.

ghost use Rattle.std.specs.Prelude.{◌≡◌, ℕ, ◌<◌, List, [], ◌∷◌, ◌++◌, length, IfOk, IfSome, MatchOption};
ghost use Rattle.tbl_kinds.specs.Records.{record_limit};
ghost use Rattle.tbl_kinds.specs.declared.entry.Entry.{Entry};
ghost use Rattle.tbl_kinds.specs.declared.request.Request.{Request};
ghost use Rattle.tbl_core.specs.Log.{IsSmall};
ghost use Rattle.tbl_core.specs.Service.{CoreView, IsOfPin};
ghost use Rattle.tbl_live.specs.Bounds.{Bound, core_bound};
ghost use Rattle.tbl_live.specs.Cores.{TakesInside, asked, MayPlay, PlaysOne};
ghost use Rattle.tbl_live.specs.Lent.{LendsNow};

use lent_images::slice_of;
use std::alloc::Global;
use tbl_core::{Core, StepFault};
use tbl_kinds::{Actor, Bytes, Entry, Memory, Request};
use tbl_outside::{Bank, Validator};
use tbl_registry::Pin;

/// The most entries of a history.
const RECORD_LIMIT: usize = 32_768;

/// What was taken of a lent image for a Read, before its turn.
#[derive(Drop)]
pub struct Taken<'a> {
    /// The image, lent to the handle of the Read.
    pub(crate) pin: &'a Pin,
    /// The bytes of it that the Read asks for.
    pub(crate) slice: Bytes,
}

impl<'a> Taken<'a> {
    /// So many bytes of a lent image from an offset on, without any lock; None if they don't lie inside it. An Err means that memory ran
    /// out.
    pub fn of(
        alloc: Global,
        pin: &'a Pin,
        offset: u32,
        len: u32,
    ) -> Result<Option<Taken<'a>>, Memory>
        ensures takes { IfOk result (TakesInside pin.now offset len) }
    {
        match slice_of(alloc, pin, offset, len)? {
            Some(slice) => Ok(Some(Taken { pin, slice })),
            None => Ok(None),
        }
    }
}

/// A core that a service can be opened over: `Core`, which keeps its history and ends after 32,768 requests, or `Lasting`, which keeps only
/// the last entry.
pub trait ServiceCore<B: Bank, C: Validator>: Drop {
    /// The core, with all that it has played.
    ghost core: { Self → CoreView B C };

    /// How many requests it plays.
    ghost bound: { Bound };

    /// Whether it may play this request.
    ghost may_play: { Self → Request → Type 0 };

    /// How many requests it has played.
    fn count(&self) -> u64
        ensures { result ≡ length (core self.now).entries };

    /// Why there is no room for this request: so many were played, or a table has had so many images. None if there is room.
    fn refusal(&mut self, request: &Request) -> Option<u64>
        ensures same { core self.new ≡ core self.old }
        ensures room { MatchOption result (may_play self.new request.now × (length (core self.new).entries < bound.limit)) (bound.full (length (core self.new).entries) (core self.new).state.tables) };

    /// Plays one request; a Read with what was taken of a lent image, if anything was.
    fn play(
        &mut self,
        actor: Actor,
        request: Request,
        taken: Option<Taken<'_>>,
    ) -> Result<(), StepFault>
        requires { MayPlay (may_play self.old request) (core self.old) (asked actor request taken) }
        ensures { PlaysOne B.Bank C.verdict (asked actor request taken.entry) (core self.old) (core self.new) result };

    /// The entry of the request that was played last.
    fn last(&self) -> &Entry
        requires { 0 < length (core self.now).entries }
        ensures last { (before : List Entry) (e : Entry) → (core self.now).entries ≡ before ++ e ∷ [] → result.now ≡ e }
        ensures small { IsSmall result.now };

    /// Lends the image that a handle pins. An Err means that it has as many owners as can be counted.
    fn lend(&self, handle: u16) -> Result<Option<Pin>, Memory>
        ensures lent { IfOk result (LendsNow handle (core self.now)) }
        ensures pin { IfOk result (λ lent. IfSome lent (λ pin. IsOfPin pin (core self.now))) };
}

impl<B: Bank, C: Validator> ServiceCore<B, C> for Core<B, C> {
    ghost core = { λ c. c };

    ghost bound = { core_bound };

    ghost may_play = { λ c request. length c.entries < record_limit };

    fn count(&self) -> u64 {
        self.history().len() as u64
    }

    fn refusal(&mut self, _request: &Request) -> Option<u64> {
        if self.history().len() < RECORD_LIMIT {
            None
        } else {
            Some(RECORD_LIMIT as u64)
        }
    }

    fn play(
        &mut self,
        actor: Actor,
        request: Request,
        taken: Option<Taken<'_>>,
    ) -> Result<(), StepFault> {
        match taken {
            None => self.step(actor, request),
            Some(Taken { pin, slice }) => self.step_read(actor, request, pin, slice),
        }
    }

    fn last(&self) -> &Entry {
        let entries = self.history();
        &entries[entries.len() - 1]
    }

    fn lend(&self, handle: u16) -> Result<Option<Pin>, Memory> {
        Core::lend(self, handle)
    }
}

//! Boots: the service begins again, by a Reset, or at once if a request was stopped inside a call of the store.

ghost use Rattle.std.specs.Prelude.{◌≡◌, [], replicate, false, None, IfOk};
ghost use Rattle.tbl_kinds.specs.declared.note.Outcome.TheVariants.{Untouched, Stopped};
ghost use Rattle.tbl_kinds.specs.declared.request.Actor.TheVariants as by;
ghost use Rattle.tbl_kinds.specs.declared.request.Request.TheVariants as ask;
ghost use Rattle.tbl_model.specs.State.{no_tables};
ghost use Rattle.tbl_model.specs.Boots.{if_processor, reset_status};
ghost use Rattle.store_requests.specs.Called.{NoBoot};
ghost use Rattle.tbl_core.specs.Answers.{Tries};
ghost use Rattle.tbl_core.specs.Booting.{HasBooted, BootsIfStopped};
ghost use Rattle.tbl_core.specs.Ended.{session_end};
ghost use Rattle.tbl_core.specs.Service.{parts_view, step_of};

use crate::parts::Parts;
use crate::service::StepFault;
use cds_store::{BankFault, Store};
use sharing::Apps;
use std::mem;
use store_requests::{Effect, note_room};
use tbl_kinds::{Answer, BankNote, Given, Memory, Note, Outcome, ResetKind, Status};
use tbl_outside::{Bank, Validator};

/// The store boots, and the note says how it went.
fn boot_store<B: Bank>(store: &mut Store<B>, kind: ResetKind, note: &mut BankNote)
    requires fresh { NoBoot note.now }
    ensures { HasBooted B.Bank kind store.old store.new note.entry.now note.exit.now }
{
    match store.boot(kind) {
        Ok(found) => note.found = found,
        Err(BankFault::Fault { .. }) => note.ended = true,
        Err(BankFault::Stopped { .. }) => {
            note.ended = true;
            note.stopped = true;
        }
    }
}

/// How a Reset is answered, by its note.
fn reset_status(note: &BankNote) -> Status
    ensures { result ≡ reset_status note.now }
{
    if !note.ended {
        return Status::SUCCESS;
    }
    if note.stopped {
        return Status::INFO_STOPPED;
    }
    Status::ERR_BOOT_FAULT
}

/// Whether a boot ended the service in the request with this given.
#[tactic(auto, using(tbl_kinds::proofs::PlainNotes::plain_goes_on))]
pub(crate) fn session_end(given: &Given) -> Result<(), StepFault>
    ensures { result ≡ session_end given.now.note }
{
    match given.touched() {
        Some(note) if note.ended && note.stopped => Err(StepFault::BootStopped),
        Some(note) if note.ended => Err(StepFault::BootFault),
        _ => Ok(()),
    }
}

impl<B: Bank, C: Validator> Parts<B, C> {
    /// The service boots: no table, handle, load, dump or pending validation is left. It isn't inlined, as hardly any request boots.
    #[inline(never)]
    fn boot(&mut self, kind: ResetKind, note: &mut BankNote)
        requires fresh { NoBoot note.now }
        ensures held { parts_view self.new ≡ record (parts_view self.old) { tables = no_tables; pending = []; store = self.new.store; ended = note.exit.now.ended } }
        ensures store { HasBooted B.Bank kind self.old.store self.new.store note.entry.now note.exit.now }
    {
        boot_store(&mut self.store, kind, note);
        self.desk.tables.clear();
        self.desk.pending.clear();
        self.ended = note.ended;
    }

    /// What outlives a reset of the processor is gone after a power-on: uplinked files, and applications that run.
    fn clear_at_power_on(&mut self, kind: ResetKind)
        ensures { parts_view self.new ≡ record (parts_view self.old) { drawer = if_processor kind self.old.desk.drawer []; apps = if_processor kind self.old.desk.apps (replicate 16 None) } }
    {
        match kind {
            ResetKind::Processor => {}
            ResetKind::PowerOn => {
                self.desk.drawer.clear();
                self.desk.apps = Apps::make();
            }
        }
    }

    /// The processor is reset (cFE User's Guide, Executive Services, "Reset Types and Subtypes").
    pub(crate) fn reset(&mut self, kind: ResetKind) -> Result<Effect, Memory>
        requires live { self.old.ended ≡ false }
        ensures no_call { IfOk result (λ done. done.note.outcome ≡ Untouched) }
        ensures tries { Tries B.Bank C.Validator (step_of (parts_view self.old) (parts_view self.new) (ask.Reset kind)) by.Ground result }
    {
        let mut whole = note_room(self.desk.alloc)?;
        self.boot(kind, &mut whole.note);
        self.clear_at_power_on(kind);
        let status = reset_status(&whole.note);
        Ok(Effect::noted(Answer::plain(status), Note::of(whole)))
    }

    /// Boots as after a reset of the processor if a call of the store was stopped in the request of this note. The note says how the boot
    /// went.
    #[inline(always)]
    pub(crate) fn boot_if_stopped(&mut self, note: &mut Note)
        requires fresh { note.old.outcome ≡ Stopped → NoBoot note.old }
        requires live { note.old.outcome ≡ Stopped → self.old.ended ≡ false }
        ensures { BootsIfStopped B.Bank note.old note.new (parts_view self.old) (parts_view self.new) }
    {
        if note.outcome() != Outcome::Stopped {
            return;
        }
        let Some(mut whole) = mem::replace(note, Note::untouched()).taken() else {
            unreachable!();
        };
        self.boot(ResetKind::Processor, &mut whole.note);
        *note = Note::of(whole);
    }
}

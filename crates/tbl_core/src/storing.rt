//! Resets, and calls of applications that reach the Critical Data Store.

ghost use Rattle.std.specs.Prelude.{◌≡◌, true, None};
ghost use Rattle.tbl_kinds.specs.Requests.{Fits};
ghost use Rattle.tbl_kinds.specs.declared.request.Actor.TheVariants as by;
ghost use Rattle.request_effects.specs.Requests.{asks_store};
ghost use Rattle.tbl_core.specs.Answers.{moment_of, CanAnswer, Answered, Tries};
ghost use Rattle.tbl_model.specs.Counts.{is_reset};
ghost use Rattle.tbl_core.specs.Service.{AreReady, parts_view, step_of};

use crate::parts::{Parts, Telemetry};
use sharing::Registration;
use store_requests::{Effect, cds_copy, cds_delete, cds_register, cds_restore, register};
use tbl_kinds::{Entry, Given, Memory, Request};
use tbl_outside::{Bank, Validator};

impl<B: Bank, C: Validator> Parts<B, C> {
    /// Resets the processor. Nothing is reported.
    #[inline(never)]
    pub(crate) fn reset_call(
        &mut self,
        entry: &mut Entry,
        telemetry: &mut Telemetry,
    ) -> Result<(), Memory>
        requires reset { is_reset entry.old.request ≡ true }
        requires actor { entry.old.actor ≡ by.Ground }
        requires stands { CanAnswer C.Validator (moment_of self.old telemetry.old entry.old) }
        ensures { Answered B.Bank C.Validator (moment_of self.old telemetry.old entry.old) (moment_of self.new telemetry.new entry.new) result }
    {
        let Request::Reset { kind } = &entry.request else {
            unreachable!();
        };
        let effect = self.reset(*kind)?;
        telemetry.counters.begin_anew();
        entry.given = Given::of(effect.put(&mut entry.reply), [None, None]);
        Ok(())
    }

    /// Does what an application asks that calls the Critical Data Store, and boots if a call of it was stopped.
    #[inline(never)]
    pub(crate) fn store_call(
        &mut self,
        app: u8,
        entry: &mut Entry,
        telemetry: &mut Telemetry,
    ) -> Result<(), Memory>
        requires actor { entry.old.actor ≡ by.App app }
        requires calls { asks_store entry.old.request None ≡ true }
        requires stands { CanAnswer C.Validator (moment_of self.old telemetry.old entry.old) }
        ensures { Answered B.Bank C.Validator (moment_of self.old telemetry.old entry.old) (moment_of self.new telemetry.new entry.new) result }
    {
        let clock = self.desk.clock;
        let effect = self.app_store_request(app, &entry.request)?;
        let note = effect.put(&mut entry.reply);
        self.end_call(clock, entry, telemetry, note);
        Ok(())
    }

    /// Does what an application asks that calls the Critical Data Store.
    fn app_store_request(&mut self, app: u8, request: &Request) -> Result<Effect, Memory>
        requires fits { Fits (by.App app) request.now }
        requires calls { asks_store request.now None ≡ true }
        requires ready { AreReady C.Validator (parts_view self.old) }
        ensures { Tries B.Bank C.Validator (step_of (parts_view self.old) (parts_view self.new) request.now) (by.App app) result }
    {
        let store = &mut self.store;
        match request {
            Request::Register {
                name,
                size,
                flags,
                validator,
            } => {
                let asked = Registration {
                    name: name.copy(),
                    size: *size,
                    flags: *flags,
                    validator: *validator,
                };
                register(&mut self.desk, store, app, &asked)
            }
            Request::CdsRegister { name, size } => cds_register(
                &self.desk, store, app, name, *size,
            ),
            Request::CdsCopy { slot, image } => {
                cds_copy(&self.desk, store, app, *slot, image.bytes())
            }
            Request::CdsRestore { slot } => cds_restore(&self.desk, store, app, *slot),
            Request::CdsDelete { slot } => cds_delete(&self.desk, store, app, *slot),
            _ => unreachable!(),
        }
    }
}

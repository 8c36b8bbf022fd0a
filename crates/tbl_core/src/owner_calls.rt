//! Calls that only the owner of a table may make, and that packets report.

ghost use Rattle.std.specs.Prelude.{◌≡◌, IfOk, OnOk, OnErr, Some, IsSome};
ghost use Rattle.tbl_kinds.specs.declared.request.Actor.TheVariants as by;
ghost use Rattle.tbl_model.specs.Tables.{table_at};
ghost use Rattle.request_effects.specs.Effects.{HasRoom};
ghost use Rattle.desk.specs.Desk.{IsEmpty, output};
ghost use Rattle.store_requests.specs.Copying.{told_in};
ghost use Rattle.tbl_core.specs.Answers.{moment_of, CanAnswer, Answered, OwnersMade};
ghost use Rattle.tbl_core.specs.Requests.{told_handle};
ghost use Rattle.tbl_core.specs.Service.{parts_view, AreReady, step_of};

use crate::ending::{answered, put_answer};
use crate::parts::{Parts, Telemetry};
use crate::requests::owned;
use desk::check;
use request_effects::Report;
use store_requests::{copy_room, then_copy};
use tbl_kinds::{Answer, Entry, Memory, Note, Reply, Request};
use tbl_outside::{Bank, Validator};
use update_requests::app_validate;

impl<B: Bank, C: Validator> Parts<B, C> {
    /// Does what an application asks for the table of a handle. Only the table's owner may ask it, and packets report it.
    pub(crate) fn owner(
        &mut self,
        app: u8,
        handle: u16,
        entry: &mut Entry,
        telemetry: &mut Telemetry,
    ) -> Result<(), Memory>
        requires asks { told_handle entry.old.request ≡ Some handle }
        requires actor { entry.old.actor ≡ by.App app }
        requires stands { CanAnswer C.Validator (moment_of self.old telemetry.old entry.old) }
        ensures { Answered B.Bank C.Validator (moment_of self.old telemetry.old entry.old) (moment_of self.new telemetry.new entry.new) result }
    {
        let clock = self.desk.clock;
        match check(&self.desk.tables, &self.desk.apps, app, handle, true) {
            Ok(row) => {
                let report = &mut telemetry.report;
                let note = self.told_effect(row, &mut entry.request, &mut entry.reply, report)?;
                self.end_call(clock, entry, telemetry, note);
                Ok(())
            }
            Err(status) => {
                let note = answered(&mut entry.reply, Answer::plain(status));
                self.end_call(clock, entry, telemetry, note);
                Ok(())
            }
        }
    }

    /// Does what the owner of the table of a row asks for it. If an image went active by it and the table is critical, it is copied into its
    /// block. The memory for the copy is taken first, as nothing can be taken back then; the copy comes last, so that no image is kept that
    /// didn't go active. If the copy was stopped, as the note says, the service doesn't boot yet.
    fn told_effect(
        &mut self,
        row: u8,
        request: &mut Request,
        reply: &mut Reply,
        report: &mut Report,
    ) -> Result<Note, Memory>
        requires asks { IsSome (told_handle request.old) }
        requires table { IsSome (table_at self.old.desk.tables row) }
        requires ready { AreReady C.Validator (parts_view self.old) }
        requires empty { IsEmpty (output reply.old report.old) }
        ensures made { IfOk result (λ note. OwnersMade B.Bank C.Validator (step_of (parts_view self.old) (parts_view self.new) request.old) row (told_in reply.new report.new note)) }
        ensures room { IfOk result (λ note. HasRoom 0 reply.new.packets (told_in reply.new report.new note)) }
        ensures request { OnOk result (request.new ≡ request.old) }
        ensures err { OnErr result (parts_view self.new ≡ parts_view self.old) }
    {
        match request {
            Request::Validate { .. } => {
                let answer = app_validate(&mut self.desk, report, row);
                Ok(answered(reply, answer))
            }
            _ => {
                copy_room(self.desk.alloc, &self.desk.tables, row, &mut self.copies)?;
                let answer = owned(&mut self.desk, reply, report, row, request)?;
                put_answer(reply, answer);
                Ok(then_copy(
                    &mut self.desk.tables,
                    &mut self.store,
                    row,
                    &mut self.copies,
                    reply,
                    report,
                ))
            }
        }
    }
}

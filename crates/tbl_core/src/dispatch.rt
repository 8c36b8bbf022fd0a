//! Which function plays a request, by its actor and its kind.

ghost use Rattle.std.specs.Prelude.{◌≡◌};
ghost use Rattle.tbl_kinds.specs.declared.request.Actor.TheVariants as by;
ghost use Rattle.tbl_core.specs.Answers.{moment_of, CanAnswer, Answered};

use crate::ending::put_answer;
use crate::parts::{Parts, Telemetry};
use tbl_kinds::{Actor, Entry, Memory, Request};
use tbl_outside::{Bank, Validator};

impl<B: Bank, C: Validator> Parts<B, C> {
    /// Does what the request of an entry asks, and keeps the outcome in the entry. If memory runs out, nothing is changed but the entry and
    /// what is reported.
    pub(crate) fn answer(
        &mut self,
        entry: &mut Entry,
        telemetry: &mut Telemetry,
    ) -> Result<(), Memory>
        requires stands { CanAnswer C.Validator (moment_of self.old telemetry.old entry.old) }
        ensures { Answered B.Bank C.Validator (moment_of self.old telemetry.old entry.old) (moment_of self.new telemetry.new entry.new) result }
    {
        match entry.actor {
            Actor::App(app) => self.app(app, entry, telemetry),
            Actor::Ground => match &entry.request {
                Request::Command { .. } => self.command(entry, telemetry),
                Request::Reset { .. } => self.reset_call(entry, telemetry),
                Request::File { .. } => self.uplink_call(entry),
                Request::Time { .. } => self.uplink_call(entry),
                _ => unreachable!(),
            },
        }
    }

    /// Does what an application asks.
    fn app(&mut self, app: u8, entry: &mut Entry, telemetry: &mut Telemetry) -> Result<(), Memory>
        requires actor { entry.old.actor ≡ by.App app }
        requires stands { CanAnswer C.Validator (moment_of self.old telemetry.old entry.old) }
        ensures { Answered B.Bank C.Validator (moment_of self.old telemetry.old entry.old) (moment_of self.new telemetry.new entry.new) result }
    {
        match &entry.request {
            Request::LoadImage { handle, .. }
            | Request::LoadFile { handle, .. }
            | Request::Update { handle }
            | Request::Validate { handle }
            | Request::Manage { handle } => {
                let handle = *handle;
                self.owner(app, handle, entry, telemetry)
            }
            Request::Register { .. }
            | Request::CdsRegister { .. }
            | Request::CdsCopy { .. }
            | Request::CdsRestore { .. }
            | Request::CdsDelete { .. } => self.store_call(app, entry, telemetry),
            _ => {
                let answer = self.user(app, &entry.request, &mut entry.reply.bytes)?;
                put_answer(&mut entry.reply, answer);
                Ok(())
            }
        }
    }
}

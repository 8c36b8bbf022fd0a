//! Requests that no packet reports, and that don't call the Critical Data Store.

ghost use Rattle.std.specs.Prelude.{◌≡◌, [], true, false, Some, None, OnOk};
ghost use Rattle.tbl_kinds.specs.Requests.{Fits};
ghost use Rattle.tbl_kinds.specs.Given.{nothing_given};
ghost use Rattle.tbl_kinds.specs.declared.request.Actor.TheVariants as by;
ghost use Rattle.tbl_model.specs.Dispatch.{ground_effect, app_effect};
ghost use Rattle.request_effects.specs.Requests.{asks_store, owners_handle};
ghost use Rattle.tbl_core.specs.Pins.{MayBeLent};
ghost use Rattle.tbl_core.specs.Lent.{GivesLent};
ghost use Rattle.tbl_core.specs.Answers.{IsBegun, AnswersAlone, AnsweredAlone, DoesQuietly};
ghost use Rattle.tbl_core.specs.Requests.{is_uplink, told_handle};
ghost use Rattle.tbl_core.specs.Service.{MayPlay, parts_view, AreReady};

use crate::ending::put_answer;
use crate::parts::Parts;
use address_requests::{get, read, read_lent, release};
use desk::{Desk, check};
use dump_requests::{dump_to_buffer, edit, get_info};
use load_requests::file;
use request_effects::Clock;
use sharing::{app_exit, notify, share, unregister};
use tbl_kinds::{Actor, Answer, Bytes, Entry, Memory, Request, Status};
use tbl_outside::{Bank, Validator};
use update_requests::get_status;

impl<B: Bank, C: Validator> Parts<B, C> {
    /// Takes an uplinked file, or the time. Nothing is reported.
    pub(crate) fn uplink_call(&mut self, entry: &mut Entry) -> Result<(), Memory>
        requires uplink { is_uplink entry.old.request ≡ true }
        requires actor { entry.old.actor ≡ by.Ground }
        requires fits { Fits by.Ground entry.old.request }
        requires begun { IsBegun entry.old }
        requires ready { AreReady C.Validator (parts_view self.old) }
        ensures { AnsweredAlone B.Bank C.Validator (parts_view self.old) (parts_view self.new) entry.old entry.new result }
    {
        let answer = self.uplink(&mut entry.request)?;
        put_answer(&mut entry.reply, answer);
        Ok(())
    }

    /// Takes an uplinked file, or the time. The history and the drawer have a large file in the same memory.
    fn uplink(&mut self, request: &mut Request) -> Result<Answer, Memory>
        requires fits { Fits by.Ground request.old }
        requires uplink { is_uplink request.old ≡ true }
        requires ready { MayPlay C.Validator (parts_view self.old) }
        ensures quietly { DoesQuietly C.Validator (parts_view self.old) (parts_view self.new) (λ s given. ground_effect s request.old given) [] result }
        ensures request { OnOk result (request.new ≡ request.old) }
    {
        match request {
            Request::File { file: uplink } => file(&mut self.desk.drawer, uplink),
            Request::Time { seconds, sub } => {
                self.desk.clock = Clock {
                    seconds: *seconds,
                    sub: *sub,
                };
                Ok(Answer::plain(Status::SUCCESS))
            }
            _ => unreachable!(),
        }
    }

    /// Does what an application asks that no packet reports, and that doesn't call the Critical Data Store.
    pub(crate) fn user(
        &mut self,
        app: u8,
        request: &Request,
        bytes: &mut Bytes,
    ) -> Result<Answer, Memory>
        requires silent { told_handle request.now ≡ None }
        requires no_call { asks_store request.now None ≡ false }
        requires fits { Fits (by.App app) request.now }
        requires ready { MayPlay C.Validator (parts_view self.old) }
        requires empty { bytes.old.list ≡ [] }
        ensures { DoesQuietly C.Validator (parts_view self.old) (parts_view self.new) (λ s given. app_effect s app request.now given) bytes.new.list result }
    {
        match request {
            Request::Get { handle } => Ok(get(&mut self.desk, app, *handle)),
            Request::Read {
                handle,
                offset,
                len,
            } => read(&mut self.desk, app, *handle, *offset, *len, bytes),
            Request::Release { handle } => Ok(release(&mut self.desk, app, *handle)),
            Request::GetStatus { handle } => Ok(get_status(&mut self.desk, app, *handle)),
            Request::GetInfo { name } => {
                get_info(&mut self.desk.tables, &self.desk.apps, app, name, bytes)
            }
            Request::Start { name } => Ok(Answer::plain(self.desk.apps.start(app, name))),
            Request::Share { name } => {
                Ok(share(&mut self.desk.tables, &self.desk.apps, app, name))
            }
            Request::Unregister { handle } => {
                let Desk {
                    tables,
                    pending,
                    apps,
                    ..
                } = &mut self.desk;
                Ok(unregister(tables, pending, apps, app, *handle))
            }
            Request::Exit => {
                let Desk {
                    tables,
                    pending,
                    kit,
                    apps,
                    ..
                } = &mut self.desk;
                Ok(app_exit(tables, pending, kit, apps, app))
            }
            Request::DumpToBuffer { handle }
            | Request::Edit { handle, .. }
            | Request::Notify { handle, .. } => self.owner_user(app, *handle, request),
            _ => unreachable!(),
        }
    }

    /// Does what an application asks for its own table that no packet reports. Only the table's owner may ask it.
    fn owner_user(&mut self, app: u8, handle: u16, request: &Request) -> Result<Answer, Memory>
        requires owners { owners_handle request.now ≡ Some handle }
        requires silent { told_handle request.now ≡ None }
        requires ready { MayPlay C.Validator (parts_view self.old) }
        ensures { DoesQuietly C.Validator (parts_view self.old) (parts_view self.new) (λ s given. app_effect s app request.now given) [] result }
    {
        let desk = &mut self.desk;
        let row = match check(&desk.tables, &desk.apps, app, handle, true) {
            Ok(row) => row,
            Err(status) => return Ok(Answer::plain(status)),
        };
        match request {
            Request::DumpToBuffer { .. } => Ok(dump_to_buffer(&mut desk.tables, row)),
            Request::Edit { offset, bytes, .. } => {
                edit(desk.alloc, &mut desk.tables, row, *offset, bytes.bytes())
            }
            Request::Notify {
                msg,
                code,
                parameter,
                ..
            } => Ok(notify(&mut desk.tables, row, *msg, *code, *parameter)),
            _ => unreachable!(),
        }
    }

    /// Answers a Read whose bytes were lent.
    pub(crate) fn answer_lent(&mut self, entry: &mut Entry, slice: Bytes)
        requires begun { IsBegun entry.old }
        requires fits { Fits entry.old.actor entry.old.request }
        requires ready { AreReady C.Validator (parts_view self.old) }
        requires lent { MayBeLent entry.old.request self.old.desk.tables slice.list }
        ensures answers { AnswersAlone B.Bank C.Validator (parts_view self.old) (parts_view self.new) entry.old entry.new }
        ensures given { entry.new.given ≡ nothing_given }
        ensures lent { GivesLent (parts_view self.old) slice entry.new }
    {
        let (
            Actor::App(app),
            Request::Read {
                handle,
                offset,
                len,
            },
        ) = (entry.actor, &entry.request)
        else {
            unreachable!();
        };
        let bytes = &mut entry.reply.bytes;
        let answer = read_lent(&self.desk, app, *handle, *offset, *len, slice, bytes);
        put_answer(&mut entry.reply, answer);
    }
}

//! What a request would ask of validation functions, and functions that are handed in for it.

ghost use Rattle.std.specs.Prelude.{◌≡◌, ◌<◌, ◌^◌, [], true, false, Some, IsSome, IfOk};
ghost use Rattle.tbl_kinds.specs.declared.request.Actor.{Actor as Who};
ghost use Rattle.tbl_kinds.specs.declared.request.Actor.TheVariants as by;
ghost use Rattle.tbl_model.specs.Tables.{table_at};
ghost use Rattle.request_effects.specs.Requests.{owners_handle};
ghost use Rattle.desk.specs.Questions.{all_asked};
ghost use Rattle.tbl_core.specs.Asking.{AsksIn, Asks, OnlyAsks, HandsIn, MeetsLimit, StandsOn, may_ask};
ghost use Rattle.tbl_core.specs.Service.{AreReady, HasRoom, LeadsTo, parts_view};

use crate::engine::Engine;
use crate::parts::Parts;
use desk::{Questions, check};
use load_requests::{load_file_asks, load_image_asks};
use tbl_kinds::{Actor, Memory, Request};
use tbl_outside::{Bank, Validator};
use update_requests::{manage_asks, validate_asks};

impl<B: Bank, C: Validator> Parts<B, C> {
    /// What the owner of the table of a row would ask of its function.
    fn row_asks(&mut self, row: u8, request: &Request) -> Result<Questions, Memory>
        requires may { may_ask request.now ≡ true }
        requires table { IsSome (table_at self.old.desk.tables row) }
        requires ready { AreReady C.Validator (parts_view self.old) }
        ensures asks { IfOk result (λ it. (actor : Who) → LeadsTo (parts_view self.old) actor request.now row → AsksIn (parts_view self.old) actor request.now (all_asked it)) }
        ensures same { self.new ≡ self.old }
    {
        let desk = &mut self.desk;
        match request {
            Request::LoadImage { image, .. } => load_image_asks(desk, row, image.bytes()),
            Request::LoadFile { name, .. } => load_file_asks(desk, row, name.name()),
            Request::Validate { .. } => validate_asks(desk, row),
            Request::Manage { .. } => manage_asks(desk, row),
            _ => unreachable!(),
        }
    }

    /// What the owner of the table of a handle would ask of its function.
    fn owner_asks(&mut self, app: u8, handle: u16, request: &Request) -> Result<Questions, Memory>
        requires may { may_ask request.now ≡ true }
        requires owners { owners_handle request.now ≡ Some handle }
        requires ready { AreReady C.Validator (parts_view self.old) }
        ensures { OnlyAsks self.old self.new (by.App app) request.now result }
    {
        match check(&self.desk.tables, &self.desk.apps, app, handle, true) {
            Ok(row) => self.row_asks(row, request),
            Err(_) => Ok(Questions::none()),
        }
    }

    /// What this request would ask of validation functions.
    fn asks(&mut self, actor: Actor, request: &Request) -> Result<Questions, Memory>
        requires ready { AreReady C.Validator (parts_view self.old) }
        ensures { OnlyAsks self.old self.new actor request.now result }
    {
        let Actor::App(app) = actor else {
            return Ok(Questions::none());
        };
        match request {
            Request::LoadImage { handle, .. }
            | Request::LoadFile { handle, .. }
            | Request::Validate { handle }
            | Request::Manage { handle } => self.owner_asks(app, *handle, request),
            _ => Ok(Questions::none()),
        }
    }
}

impl<B: Bank, C: Validator> Engine<B, C> {
    /// What this request would ask of validation functions, if it were played now: which of them, about which images, in order. An Err
    /// means that memory ran out for an image.
    pub fn asks(&mut self, actor: Actor, request: &Request) -> Result<Questions, Memory>
        requires live { self.old.state.ended ≡ false }
        requires room { HasRoom self.old request.now }
        ensures asks { IfOk result (λ it. Asks B.Bank self.old actor request.now (all_asked it)) }
        ensures same { self.new ≡ self.old }
    {
        self.works.parts.asks(actor, request)
    }

    /// Makes room for this request, if there can be: how many images the tables have had is counted again if the bound on that is too
    /// great. Whether the engine plays the request.
    pub fn make_room(&mut self, request: &Request) -> bool
        ensures room { result ≡ true → HasRoom self.new request.now }
        ensures full { result ≡ false → MeetsLimit self.new }
        ensures on { StandsOn B.Bank self.old self.new }
    {
        if self.limit_met(request).is_none() {
            return true;
        }
        self.recount();
        self.limit_met(request).is_none()
    }

    /// Replaces the function of this number, if there is one, by another. It is the same application's, so the engine represents whatever
    /// it represented before.
    pub fn hand(&mut self, number: u8, check: C)
        requires fresh { C.asked check < 2 ^ 62 }
        ensures hands { HandsIn number check self.old self.new }
        ensures on { StandsOn B.Bank self.old self.new }
    {
        self.works.parts.desk.kit.hand(number, check);
    }
}

//! What the engine works with, and how it plays a request.

ghost use Rattle.std.specs.Prelude.{◌≡◌, false, Ok, Err, ◌≤◌, slice_set};
ghost use Rattle.tbl_kinds.specs.Places.{bank_size};
ghost use Rattle.tbl_model.specs.Whole.{is_done};
ghost use Rattle.tbl_core.specs.Pins.{place_in, gets_after, MayBeLent};
ghost use Rattle.tbl_core.specs.Entering.{MayBePlayed};
ghost use Rattle.tbl_core.specs.Lent.{StillPins, GivesLent};
ghost use Rattle.tbl_core.specs.Starting.{MakesNew};
ghost use Rattle.tbl_core.specs.Service.{HasPlays, IsReady, parts_view, works_view};

use crate::boots::session_end;
use crate::parts::{Parts, Room, Telemetry};
use crate::service::StepFault;
use cds_store::Store;
use desk::Desk;
use reply_packets::Counters;
use request_effects::Clock;
use sharing::Apps;
use std::alloc::Global;
use store_requests::CopyRoom;
use tbl_kinds::{Admit, Bytes, Entry, Memory, Request, Status};
use tbl_outside::{Back, Bank, Validator};
use tbl_registry::Pin;
use validation::{Kit, Pending};

/// What the engine works with: what requests work on, the running numbers of telemetry, and what is kept of the requests that were
/// played. It doesn't grow with these.
#[derive(Drop)]
pub(crate) struct Works<B: Bank, C: Validator> {
    pub parts: Parts<B, C>,
    pub telemetry: Telemetry,
    /// For each handle the place of the latest request that got an address by it.
    pub gets: Vec<u64>,
    /// How many requests were played.
    pub played: u64,
    /// No table has had more images than this since it was registered.
    pub images: u32,
}

/// Whether a call with this status did what was requested.
fn is_done(status: Status) -> bool
    ensures { result ≡ is_done status }
{
    status == Status::SUCCESS || status == Status::INFO_UPDATED
}

/// Keeps the place of a call that got an address by this handle.
#[tactic(auto, using(crate::proofs::Places::past_end))]
fn keep_at(gets: &mut Vec<u64>, handle: u16, place: u64)
    ensures { gets.new.items ≡ slice_set gets.old.items handle place }
{
    let at = usize::from(handle);
    if at < gets.len() {
        gets[at] = place;
    }
}

/// Keeps the place of an entry, if it got an address.
fn keep_place(gets: &mut Vec<u64>, entry: &Entry, place: u64)
    ensures { gets.new.items ≡ gets_after gets.old.items place entry.now }
{
    match &entry.request {
        Request::Get { handle } if is_done(entry.reply.status) => keep_at(gets, *handle, place),
        _ => {}
    }
}

impl<B: Bank, C: Validator> Works<B, C> {
    /// Nothing runs, nothing is registered, no validation is pending, no file is there, nothing was played, and the time is 0. The
    /// store isn't booted yet.
    pub(crate) fn make(
        alloc: Global,
        bank: B,
        kit: Kit<C>,
        admit: Admit,
    ) -> Result<Works<B, C>, Back<Memory, B>>
        requires { bank_size ≤ B.size bank }
        ensures { MakesNew bank kit admit result }
    {
        let room = match Room::make(alloc) {
            Ok(room) => room,
            Err(cause) => return Err(Back { cause, bank }),
        };
        let desk = Desk {
            alloc,
            tables: room.tables,
            apps: Apps::make(),
            kit,
            admit,
            pending: Pending::make(),
            drawer: room.drawer,
            clock: Clock { seconds: 0, sub: 0 },
        };
        Ok(Works {
            parts: Parts {
                desk,
                store: Store::make(alloc, bank)?,
                ended: false,
                copies: CopyRoom::none(),
            },
            telemetry: Telemetry {
                counters: Counters::make(),
                report: room.report,
            },
            gets: room.gets,
            played: 0,
            images: 0,
        })
    }

    /// The place of the latest request that got an address by this handle, 0 if there is none.
    pub(crate) fn place_of(&self, handle: u16) -> u64
        ensures { result ≡ place_in self.now.gets.items handle }
    {
        match self.gets.get(usize::from(handle)) {
            Some(place) => *place,
            None => 0,
        }
    }

    /// Does what a request asks that isn't answered yet, and keeps the outcome in its entry. If memory runs out, nothing is changed but the
    /// entry. If the service boots in the request and that boot fails or is stopped, the entry is the last one.
    #[inline(always)]
    pub(crate) fn play(&mut self, entry: &mut Entry) -> Result<(), StepFault>
        requires may { MayBePlayed (works_view self.old) entry.old }
        requires ready { IsReady C.Validator (works_view self.old) }
        ensures { HasPlays B.Bank C.Validator (works_view self.old) (works_view self.new) entry.old entry.new result }
    {
        self.telemetry.report.clear();
        if self.parts.answer(entry, &mut self.telemetry).is_err() {
            return Err(StepFault::Memory);
        }
        keep_place(&mut self.gets, entry, self.played);
        self.played += 1;
        self.images += 1;
        session_end(&entry.given)
    }

    /// Answers a Read with the bytes that were taken of a lent image, as long as its handle pins by the call that it was lent for; else
    /// plays it.
    pub(crate) fn play_read(
        &mut self,
        entry: &mut Entry,
        pin: &Pin,
        slice: Bytes,
    ) -> Result<(), StepFault>
        requires may { MayBePlayed (works_view self.old) entry.old }
        requires ready { IsReady C.Validator (works_view self.old) }
        requires lent { StillPins pin.now self.old.gets.items → MayBeLent entry.old.request self.old.parts.desk.tables slice.list }
        ensures played { HasPlays B.Bank C.Validator (works_view self.old) (works_view self.new) entry.old entry.new result }
        ensures lent { StillPins pin.now self.old.gets.items → (result ≡ Ok tt) × GivesLent (parts_view self.old.parts) slice entry.new }
    {
        if self.place_of(pin.handle()) != pin.place() {
            return self.play(entry);
        }
        self.parts.answer_lent(entry, slice);
        keep_place(&mut self.gets, entry, self.played);
        self.played += 1;
        self.images += 1;
        Ok(())
    }
}

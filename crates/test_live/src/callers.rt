//! Applications that call from threads of their own.

ghost use Rattle.std.specs.Prelude.{ℕ, ◌<◌, ◌∷◌, All, length, slice_index_or};
ghost use Rattle.tbl_live.specs.Seats.{SeatView, AreSeats, IsAppOf, IsSame};
ghost use Rattle.test_live.specs.Applications.{IsFromApps};

use crate::agreeing::{Told, are_all};
use crate::pinned::read_pinned;
use crate::requests::{get_info, start};
use crate::services::new_core;
use shipped_kit::FirstByte;
use std::alloc::Global;
use std::sync::{Mutex, Wait};
use std::thread::{self, Threads};
use tbl_core::Core;
use tbl_fakes::CalmBank;
use tbl_kinds::{Bytes, Entry, Memory, Request};
use tbl_live::{REPLY_LIMIT, Seat, Seats, Service};
use test_tables::{CaseFault, Row};

/// How many threads there may be.
const THREADS: usize = 16;

/// What each caller does after it has started.
#[derive(Clone, Copy)]
enum Job {
    /// It asks for the registry record of a table that isn't there.
    Ask,
    /// It reads a large image through a pin, after three more calls.
    ReadPinned,
}

/// The job of a row, by its first cell.
fn job_of(row: &Row) -> Result<Job, CaseFault> {
    match row.text(0)? {
        "pinned" => Ok(Job::ReadPinned),
        _ => Ok(Job::Ask),
    }
}

/// Makes one call of an application, and keeps its receipt.
#[tactic(auto, using(tbl_live::proofs::SeatLemmas::fits_actor, tbl_live::proofs::SeatLemmas::still_app))]
pub(crate) fn call<R: Wait>(
    rt: &R,
    service: &Service<CalmBank, FirstByte, Core<CalmBank, FirstByte>>,
    seat: &mut Seat<CalmBank, FirstByte, Core<CalmBank, FirstByte>>,
    request: Request,
    told: &mut Told,
    out: &mut Bytes,
)
    requires app { IsAppOf service.now.of seat.old }
    requires asks { IsFromApps request }
    ensures app { IsAppOf service.now.of seat.new }
    ensures same { IsSame seat.old seat.new }
{
    out.clear();
    if out.reserve(REPLY_LIMIT).is_err() {
        told.is_refused = true;
        return;
    }
    match service.call(rt, seat, request, out) {
        // There is room for the receipts of all calls.
        Ok(receipt) => told.is_refused |= told.receipts.push(receipt).is_err(),
        Err(_) => told.is_refused = true,
    }
}

/// An application starts, and makes so many calls.
#[tactic(auto, using(tbl_live::proofs::SeatLemmas::same_then))]
fn call_all<R: Wait>(
    rt: &R,
    alloc: Global,
    service: &Service<CalmBank, FirstByte, Core<CalmBank, FirstByte>>,
    seat: &mut Seat<CalmBank, FirstByte, Core<CalmBank, FirstByte>>,
    count: u32,
    told: &mut Told,
)
    requires app { IsAppOf service.now.of seat.old }
    ensures same { IsSame seat.old seat.new }
{
    let Ok(mut out) = Bytes::make(alloc, REPLY_LIMIT) else {
        told.is_refused = true;
        return;
    };
    call(rt, service, seat, start(), told, &mut out);
    'calls: for _ in 0..count {
        call(rt, service, seat, get_info(), told, &mut out);
    }
}

/// Rooms for what so many callers are told, each of so many calls after its start.
fn rooms(alloc: Global, callers: u32, count: u32) -> Result<Vec<Mutex<Told>>, Memory> {
    let mut rooms = Vec::new(alloc);
    for _ in 0..callers {
        let told = Told {
            receipts: Vec::with_capacity(alloc, count as usize + 4)?,
            is_refused: false,
            is_torn: false,
        };
        rooms.push(Mutex::new(told))?;
    }
    Ok(rooms)
}

/// Does the job of one caller, with so many calls.
fn do_job<R: Wait>(
    rt: &R,
    alloc: Global,
    service: &Service<CalmBank, FirstByte, Core<CalmBank, FirstByte>>,
    seat: &mut Seat<CalmBank, FirstByte, Core<CalmBank, FirstByte>>,
    place: usize,
    job: (Job, u32),
    told: &mut Told,
)
    requires app { IsAppOf service.now.of seat.old }
    ensures same { IsSame seat.old seat.new }
{
    let (kind, count) = job;
    match kind {
        Job::Ask => call_all(rt, alloc, service, seat, count, told),
        Job::ReadPinned => {
            let number = place.min(THREADS) as u8;
            read_pinned(rt, alloc, service, seat, number, count, told);
        }
    }
}

/// Lets the applications call that have rooms, with a thread each.
fn call_each<R: Threads + Wait + Sync>(
    rt: &R,
    alloc: Global,
    service: &Service<CalmBank, FirstByte, Core<CalmBank, FirstByte>>,
    apps: &mut [Seat<CalmBank, FirstByte, Core<CalmBank, FirstByte>>],
    job: (Job, u32),
    rooms: &Vec<Mutex<Told>>,
)
    requires apps { All (IsAppOf service.now.of) apps.old }
    ensures same { (i : ℕ) (d : SeatView CalmBank FirstByte) → i < length apps.old → IsSame (slice_index_or apps.old i d) (slice_index_or apps.new i d) }
{
    thread::for_each_mut(
        rt,
        apps,
        THREADS,
        &|place: usize, seat: &mut Seat<CalmBank, FirstByte, Core<CalmBank, FirstByte>>|
            requires { IsAppOf service.now.of seat.now }
            ensures { IsSame seat.entry.now seat.exit.now }
        {
            if let Some(room) = rooms.get(place) {
                do_job(rt, alloc, service, seat, place, job, &mut room.lock(rt));
            }
        },
    );
}

/// Lets the first applications call, as many as there are rooms.
fn call_beside<R: Threads + Wait + Sync>(
    rt: &R,
    alloc: Global,
    service: &Service<CalmBank, FirstByte, Core<CalmBank, FirstByte>>,
    seats: &mut Seats<CalmBank, FirstByte, Core<CalmBank, FirstByte>>,
    job: (Job, u32),
    rooms: &Vec<Mutex<Told>>,
)
    requires seats { AreSeats service.now.of (seats.old.ground ∷ seats.old.apps.items) }
    ensures seats { AreSeats service.now.of (seats.new.ground ∷ seats.new.apps.items) }
{
    call_each(rt, alloc, service, seats.apps.as_mut_slice(), job, rooms);
}

/// Whether each caller was told of all its entries of the history, and whether a call of any of them was refused.
fn look<R: Wait>(rt: &R, entries: &[Entry], rooms: &Vec<Mutex<Told>>) -> (bool, bool) {
    let mut agrees = true;
    let mut is_refused = false;
    let mut actor: u8 = 0;
    for room in rooms {
        let told = room.lock(rt);
        actor = actor.saturating_add(1);
        agrees &= are_all(&told.receipts, entries, actor) && !told.is_torn;
        is_refused |= told.is_refused;
    }
    (agrees, is_refused)
}

/// Compares what the callers were told with the history, and its length with the row. A call is refused for want of memory
/// alone, and then the others are still what the history has.
fn compare<R: Wait>(
    rt: &R,
    row: &Row,
    entries: &[Entry],
    rooms: &Vec<Mutex<Told>>,
) -> Result<(), CaseFault> {
    match look(rt, entries, rooms) {
        (false, _) => {
            let text = String::from_str(
                row.alloc(),
                "a receipt isn't that of its entry, or an image came torn",
            )?;
            Err(CaseFault::Differs(text))
        }
        (true, true) => Err(CaseFault::Memory),
        (true, false) => row.same_number(4, entries.len() as u64),
    }
}

/// Lets the applications of a row call once.
fn try_once<R: Threads + Wait + Sync>(rt: &R, row: &Row) -> Result<(), CaseFault> {
    let count = row.number(2)?;
    let rooms = rooms(row.alloc(), row.number(1)?, count)?;
    let core = new_core(row.alloc())?;
    let Ok((service, mut seats)) = Service::open(row.alloc(), core) else {
        return Err(CaseFault::Memory);
    };
    let job = (job_of(row)?, count);
    call_beside(rt, row.alloc(), &service, &mut seats, job, &rooms);
    let core = service.close(seats);
    let compared = compare(rt, row, core.history(), &rooms);
    let _bank = core.end();
    compared
}

/// Lets the applications of a row call as often as it states.
pub(crate) fn try_callers<R: Threads + Wait + Sync>(rt: &R, row: &Row) -> Result<u32, CaseFault> {
    let times = row.number(3)?;
    for _ in 0..times {
        try_once(rt, row)?;
    }
    Ok(times)
}

//! An application that reads its table, in the thread of the row.

ghost use Rattle.std.specs.Prelude.{◌∷◌};
ghost use Rattle.tbl_live.specs.Seats.{AreSeats, IsAppOf, IsSame};

use crate::agreeing::{Told, are_all};
use crate::callers::call;
use crate::requests::{IMAGE, get, load, read, register, release, start};
use crate::services::new_core;
use shipped_kit::FirstByte;
use std::alloc::Global;
use std::sync::Wait;
use tbl_core::Core;
use tbl_fakes::CalmBank;
use tbl_kinds::Bytes;
use tbl_live::{REPLY_LIMIT, Seat, Seats, Service};
use test_tables::{CaseFault, Row};

/// Gets the address of the table, reads its image, and gives the address back. It says whether the image came whole.
#[tactic(auto, using(tbl_live::proofs::SeatLemmas::same_then))]
fn read_once<R: Wait>(
    rt: &R,
    service: &Service<CalmBank, FirstByte, Core<CalmBank, FirstByte>>,
    seat: &mut Seat<CalmBank, FirstByte, Core<CalmBank, FirstByte>>,
    told: &mut Told,
    out: &mut Bytes,
) -> bool
    requires app { IsAppOf service.now.of seat.old }
    ensures app { IsAppOf service.now.of seat.new }
    ensures same { IsSame seat.old seat.new }
{
    call(rt, service, seat, get(), told, out);
    call(rt, service, seat, read(), told, out);
    let is_whole = out.bytes() == IMAGE.as_slice();
    call(rt, service, seat, release(), told, out);
    is_whole
}

/// An application starts, registers a table, loads it, and reads it so often. It says how often the image came whole.
#[tactic(auto, using(tbl_live::proofs::SeatLemmas::same_then))]
fn read_all<R: Wait>(
    rt: &R,
    alloc: Global,
    service: &Service<CalmBank, FirstByte, Core<CalmBank, FirstByte>>,
    seat: &mut Seat<CalmBank, FirstByte, Core<CalmBank, FirstByte>>,
    times: u32,
    told: &mut Told,
) -> Result<u32, CaseFault>
    requires app { IsAppOf service.now.of seat.old }
    ensures same { IsSame seat.old seat.new }
{
    let mut out = Bytes::make(alloc, REPLY_LIMIT)?;
    let image = load(alloc)?;
    call(rt, service, seat, start(), told, &mut out);
    call(rt, service, seat, register(), told, &mut out);
    call(rt, service, seat, image, told, &mut out);
    let mut whole: u32 = 0;
    'reads: for _ in 0..times {
        let is_whole = read_once(rt, service, seat, told, &mut out);
        whole = whole.saturating_add(u32::from(is_whole));
    }
    Ok(whole)
}

/// The same, by the seat of application 1.
fn read_by_first<R: Wait>(
    rt: &R,
    alloc: Global,
    service: &Service<CalmBank, FirstByte, Core<CalmBank, FirstByte>>,
    seats: &mut Seats<CalmBank, FirstByte, Core<CalmBank, FirstByte>>,
    times: u32,
    told: &mut Told,
) -> Result<u32, CaseFault>
    requires seats { AreSeats service.now.of (seats.old.ground ∷ seats.old.apps.items) }
    ensures seats { AreSeats service.now.of (seats.new.ground ∷ seats.new.apps.items) }
{
    let seat = &mut seats.apps[0];
    read_all(rt, alloc, service, seat, times, told)
}

/// Lets application 1 read as often as the row states, and compares what it was told with the history.
pub(crate) fn try_reads<R: Wait>(rt: &R, row: &Row) -> Result<u32, CaseFault> {
    let times = row.number(1)?;
    let mut told = Told {
        receipts: Vec::new(row.alloc()),
        is_refused: false,
        is_torn: false,
    };
    let core = new_core(row.alloc())?;
    let Ok((service, mut seats)) = Service::open(row.alloc(), core) else {
        return Err(CaseFault::Memory);
    };
    let whole = read_by_first(rt, row.alloc(), &service, &mut seats, times, &mut told);
    let core = service.close(seats);
    let agrees = are_all(&told.receipts, core.history(), 1);
    let entries = core.history().len();
    let _bank = core.end();
    compare(row, whole?, agrees, told.is_refused, entries)
}

/// Compares what came with what the row states.
fn compare(
    row: &Row,
    whole: u32,
    agrees: bool,
    is_refused: bool,
    entries: usize,
) -> Result<u32, CaseFault> {
    if !agrees {
        let text = String::from_str(row.alloc(), "a receipt isn't that of its entry")?;
        return Err(CaseFault::Differs(text));
    }
    if is_refused {
        return Err(CaseFault::Memory);
    }
    row.same_number(1, u64::from(whole))?;
    row.same_number(2, entries as u64)?;
    Ok(1)
}

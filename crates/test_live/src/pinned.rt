//! An application that reads a large image through a pin.

ghost use Rattle.tbl_live.specs.Lent.{IsLentTo};
ghost use Rattle.tbl_live.specs.Seats.{IsAppOf, IsSame};

use crate::agreeing::Told;
use crate::callers::call;
use crate::requests::{FILL, LARGE, get_by, load_large, register_large, start_as};
use shipped_kit::FirstByte;
use std::alloc::Global;
use std::sync::Wait;
use tbl_core::Core;
use tbl_fakes::CalmBank;
use tbl_kinds::Bytes;
use tbl_live::{REPLY_LIMIT, Seat, Service};
use tbl_registry::Pin;

/// An application starts, registers a table, loads it and gets its address. Its handle is that of the receipt.
#[tactic(auto, using(tbl_live::proofs::SeatLemmas::same_then))]
fn get_large<R: Wait>(
    rt: &R,
    alloc: Global,
    service: &Service<CalmBank, FirstByte, Core<CalmBank, FirstByte>>,
    seat: &mut Seat<CalmBank, FirstByte, Core<CalmBank, FirstByte>>,
    number: u8,
    told: &mut Told,
    out: &mut Bytes,
) -> u16
    requires app { IsAppOf service.now.of seat.old }
    ensures app { IsAppOf service.now.of seat.new }
    ensures same { IsSame seat.old seat.new }
{
    call(rt, service, seat, start_as(number), told, out);
    call(rt, service, seat, register_large(), told, out);
    let handle = told.last_detail();
    match load_large(alloc, handle) {
        Ok(load) => call(rt, service, seat, load, told, out),
        Err(_) => told.is_refused = true,
    }
    call(rt, service, seat, get_by(handle), told, out);
    handle
}

/// Reads the whole image once through its pin.
#[tactic(auto, using(tbl_live::proofs::SeatLemmas::fits_actor, tbl_live::proofs::SeatLemmas::still_app))]
fn read_once<R: Wait>(
    rt: &R,
    service: &Service<CalmBank, FirstByte, Core<CalmBank, FirstByte>>,
    seat: &mut Seat<CalmBank, FirstByte, Core<CalmBank, FirstByte>>,
    pin: &Pin,
    told: &mut Told,
    out: &mut Bytes,
)
    requires app { IsAppOf service.now.of seat.old }
    requires lent { IsLentTo seat.old pin.now }
    ensures app { IsAppOf service.now.of seat.new }
    ensures lent { IsLentTo seat.new pin.now }
    ensures same { IsSame seat.old seat.new }
{
    out.clear();
    if out.reserve(REPLY_LIMIT).is_err() {
        told.is_refused = true;
        return;
    }
    match service.read_pinned(rt, seat, pin, 0, LARGE as u32, out) {
        Ok(receipt) => told.is_refused |= told.receipts.push(receipt).is_err(),
        Err(_) => told.is_refused = true,
    }
    told.is_torn |= out.bytes() != [FILL; LARGE].as_slice();
}

/// An application reads a large image so often through one pin.
#[tactic(auto, using(tbl_live::proofs::SeatLemmas::same_then, tbl_live::proofs::SeatLemmas::still_app))]
pub(crate) fn read_pinned<R: Wait>(
    rt: &R,
    alloc: Global,
    service: &Service<CalmBank, FirstByte, Core<CalmBank, FirstByte>>,
    seat: &mut Seat<CalmBank, FirstByte, Core<CalmBank, FirstByte>>,
    number: u8,
    count: u32,
    told: &mut Told,
)
    requires app { IsAppOf service.now.of seat.old }
    ensures same { IsSame seat.old seat.new }
{
    let Ok(mut out) = Bytes::make(alloc, REPLY_LIMIT) else {
        told.is_refused = true;
        return;
    };
    let handle = get_large(rt, alloc, service, seat, number, told, &mut out);
    let Ok(Some(pin)) = service.lend(rt, seat, handle) else {
        told.is_refused = true;
        return;
    };
    'reads: for _ in 0..count {
        read_once(rt, service, seat, &pin, told, &mut out);
    }
}

//! Calls of one thread.

ghost use Rattle.std.specs.Prelude.{◌≡◌, ◌∷◌};
ghost use Rattle.tbl_kinds.specs.Requests.{Fits};
ghost use Rattle.tbl_kinds.specs.declared.request.Actor.TheVariants.{Ground};
ghost use Rattle.tbl_live.specs.Seats.{AreSeats, IsOfActor, IsSame};

use crate::requests::noop;
use crate::services::new_core;
use shipped_kit::FirstByte;
use std::alloc::Global;
use std::sync::Wait;
use tbl_core::Core;
use tbl_fakes::CalmBank;
use tbl_kinds::{Bytes, Request};
use tbl_live::{REPLY_LIMIT, Receipt, Seat, Seats, Service, ServiceCore};
use test_tables::{CaseFault, Row, same_text};

/// Makes a call, and tells its receipt.
pub(crate) fn call<R: Wait, K: ServiceCore<CalmBank, FirstByte>>(
    rt: &R,
    service: &Service<CalmBank, FirstByte, K>,
    seat: &mut Seat<CalmBank, FirstByte, K>,
    request: Request,
    out: &mut Bytes,
) -> Result<Receipt, CaseFault>
    requires own { seat.old.of ≡ service.now.of }
    requires ground { seat.old.actor ≡ Ground }
    requires fits { Fits Ground request }
    ensures same { IsSame seat.old seat.new }
{
    out.clear();
    out.reserve(REPLY_LIMIT)?;
    match service.call(rt, seat, request, out) {
        Ok(receipt) => Ok(receipt),
        Err(_) => Err(CaseFault::Memory),
    }
}

/// The ground sets the time and sends a NOOP.
#[tactic(auto, using(tbl_live::proofs::SeatLemmas::same_then))]
fn call_both<R: Wait>(
    rt: &R,
    alloc: Global,
    service: &Service<CalmBank, FirstByte, Core<CalmBank, FirstByte>>,
    seat: &mut Seat<CalmBank, FirstByte, Core<CalmBank, FirstByte>>,
) -> Result<[Receipt; 2], CaseFault>
    requires ground { IsOfActor service.now.of 0 seat.old }
    ensures same { IsSame seat.old seat.new }
{
    let mut out = Bytes::make(alloc, REPLY_LIMIT)?;
    let time = Request::Time { seconds: 7, sub: 0 };
    let noop = noop(alloc)?;
    let first = call(rt, service, seat, time, &mut out)?;
    let second = call(rt, service, seat, noop, &mut out)?;
    Ok([first, second])
}

/// The same, by the ground's seat of all.
fn call_by_ground<R: Wait>(
    rt: &R,
    alloc: Global,
    service: &Service<CalmBank, FirstByte, Core<CalmBank, FirstByte>>,
    seats: &mut Seats<CalmBank, FirstByte, Core<CalmBank, FirstByte>>,
) -> Result<[Receipt; 2], CaseFault>
    requires seats { AreSeats service.now.of (seats.old.ground ∷ seats.old.apps.items) }
    ensures seats { AreSeats service.now.of (seats.new.ground ∷ seats.new.apps.items) }
{
    call_both(rt, alloc, service, &mut seats.ground)
}

/// Compares the receipts of two calls of the ground with those that the row states.
pub(crate) fn try_first<R: Wait>(rt: &R, row: &Row) -> Result<u32, CaseFault> {
    let core = new_core(row.alloc())?;
    let Ok((service, mut seats)) = Service::open(row.alloc(), core) else {
        return Err(CaseFault::Memory);
    };
    let called = call_by_ground(rt, row.alloc(), &service, &mut seats);
    let _bank = service.close(seats).end();
    let [a, b] = called?;
    let told = format!(in row.alloc();
        "{}/{} {}/{}",
        a.place(),
        a.status().0,
        b.place(),
        b.status().0
    )?;
    same_text(told, row.text(1)?)?;
    Ok(1)
}

//! Calls at a service that keeps no history.

ghost use Rattle.std.specs.Prelude.{◌≡◌, ◌∷◌, false, IfOk};
ghost use Rattle.tbl_live.specs.Lasting.{core_in};
ghost use Rattle.tbl_live.specs.Seats.{AreSeats, IsOfActor, IsSame};

use crate::first_calls::call;
use crate::requests::noop;
use crate::services::new_bank;
use shipped_kit::FirstByte;
use std::alloc::Global;
use std::sync::Wait;
use tbl_fakes::CalmBank;
use tbl_kinds::{Admit, Bytes, Status};
use tbl_live::{Lasting, REPLY_LIMIT, Receipt, Seat, Seats, Service};
use test_tables::{CaseFault, Row};
use validation::Kit;

/// A core that keeps no history, without validation functions over a bank of zeros.
fn new_lasting(alloc: Global) -> Result<Lasting<CalmBank, FirstByte>, CaseFault>
    ensures live { IfOk result (λ it. (core_in it).state.ended ≡ false) }
{
    let kit = Kit::make(alloc, Vec::new(alloc))?;
    let bank = new_bank(alloc)?;
    match Lasting::start(alloc, bank, kit, Admit::all()) {
        Ok(core) => Ok(core),
        Err(_) => Err(CaseFault::Memory),
    }
}

/// Whether the receipt is that of an answered call with so many before it.
fn is_of(receipt: &Receipt, place: u32) -> bool {
    receipt.place() == u64::from(place) && receipt.status() == Status::SUCCESS
}

/// The ground sends so many NOOPs. The answer is how many of them have the receipt that is theirs.
#[tactic(auto, using(tbl_live::proofs::SeatLemmas::same_then))]
fn call_all<R: Wait>(
    rt: &R,
    alloc: Global,
    service: &Service<CalmBank, FirstByte, Lasting<CalmBank, FirstByte>>,
    seat: &mut Seat<CalmBank, FirstByte, Lasting<CalmBank, FirstByte>>,
    count: u32,
) -> Result<u32, CaseFault>
    requires ground { IsOfActor service.now.of 0 seat.old }
    ensures same { IsSame seat.old seat.new }
{
    let mut out = Bytes::make(alloc, REPLY_LIMIT)?;
    let mut right = 0u32;
    'calls: for place in 0..count {
        let receipt = call(rt, service, seat, noop(alloc)?, &mut out)?;
        if is_of(&receipt, place) {
            right = right.saturating_add(1);
        }
    }
    Ok(right)
}

/// The same, by the ground's seat of all.
fn call_by_ground<R: Wait>(
    rt: &R,
    alloc: Global,
    service: &Service<CalmBank, FirstByte, Lasting<CalmBank, FirstByte>>,
    seats: &mut Seats<CalmBank, FirstByte, Lasting<CalmBank, FirstByte>>,
    count: u32,
) -> Result<u32, CaseFault>
    requires seats { AreSeats service.now.of (seats.old.ground ∷ seats.old.apps.items) }
    ensures seats { AreSeats service.now.of (seats.new.ground ∷ seats.new.apps.items) }
{
    call_all(rt, alloc, service, &mut seats.ground, count)
}

/// Makes so many calls, and compares each receipt with what it has to be.
pub(crate) fn try_lasting<R: Wait>(rt: &R, row: &Row) -> Result<u32, CaseFault> {
    let count = row.number(1)?;
    let core = new_lasting(row.alloc())?;
    let Ok((service, mut seats)) = Service::open(row.alloc(), core) else {
        return Err(CaseFault::Memory);
    };
    let called = call_by_ground(rt, row.alloc(), &service, &mut seats, count);
    let _bank = service.close(seats).end();
    let right = called?;
    if right == count {
        Ok(1)
    } else {
        Err(CaseFault::Differs(format!(in row.alloc(); "{right} receipts")?))
    }
}

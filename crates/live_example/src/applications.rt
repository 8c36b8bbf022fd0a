//! The two applications.

ghost use Rattle.std.specs.Prelude.{IfOk};
ghost use Rattle.tbl_live.specs.Seats.{IsAppOf, IsSame};
ghost use Rattle.live_example.specs.Flights.{AreOfBoard};

use crate::shared::{Place, Shared, Stop};
use std::alloc::Global;
use std::sync::Wait;
use tbl_kinds::{Bytes, Name, Request};
use tbl_live::{REPLY_LIMIT, Ticket};

/// How many bytes the limits have.
pub(crate) const LIMITS: usize = 8;

/// How often an application reads the limits while the ground is at work.
const READS: u32 = 500;

/// The option of a table with two buffers, whose readers don't lock it.
const DOUBLE_BUFFERED: u16 = 0x0001;

/// The guidance application's handle of the limits, and the thermal one's.
pub(crate) const GUIDANCE_HANDLE: u16 = 0;

pub(crate) const THERMAL_HANDLE: u16 = 1;

/// What an application read: how often one whole image, and how often a mix of two.
#[derive(Clone, Copy)]
pub(crate) struct Reads {
    pub(crate) whole: u32,
    pub(crate) mixed: u32,
}

/// Starts guidance, registers the limits, and loads the first ones.
#[tactic(auto, using(tbl_live::proofs::SeatLemmas::fits_actor, tbl_live::proofs::SeatLemmas::same_then, tbl_live::proofs::SeatLemmas::still_app))]
pub(crate) fn begin_guidance<R: Wait>(
    rt: &R,
    alloc: Global,
    shared: &Shared,
    seat: &mut Place,
) -> Result<[Ticket; 3], Stop>
    requires app { IsAppOf shared.now.service.of seat.old }
    ensures same { IsSame seat.old seat.new }
    ensures shown { IfOk result (AreOfBoard shared.now.board) }
{
    let mut out = Bytes::make(alloc, REPLY_LIMIT)?;
    let mut image = Bytes::make(alloc, LIMITS)?;
    image.append(&[1; LIMITS]);
    let start = Request::Start {
        name: Name::of(b"GUIDE"),
    };
    let register = Request::Register {
        name: Name::of(b"LIMITS"),
        size: LIMITS as u32,
        flags: DOUBLE_BUFFERED,
        validator: None,
    };
    let load = Request::LoadImage {
        handle: GUIDANCE_HANDLE,
        image,
    };
    let (_, started) = shared.call_shown(rt, seat, start, &mut out)?;
    let (_, registered) = shared.call_shown(rt, seat, register, &mut out)?;
    let (_, loaded) = shared.call_shown(rt, seat, load, &mut out)?;
    Ok([started, registered, loaded])
}

/// Starts the thermal application, which gets a handle of guidance's limits.
#[tactic(auto, using(tbl_live::proofs::SeatLemmas::fits_actor, tbl_live::proofs::SeatLemmas::same_then, tbl_live::proofs::SeatLemmas::still_app))]
pub(crate) fn begin_thermal<R: Wait>(
    rt: &R,
    alloc: Global,
    shared: &Shared,
    seat: &mut Place,
) -> Result<[Ticket; 2], Stop>
    requires app { IsAppOf shared.now.service.of seat.old }
    ensures same { IsSame seat.old seat.new }
    ensures shown { IfOk result (AreOfBoard shared.now.board) }
{
    let mut out = Bytes::make(alloc, REPLY_LIMIT)?;
    let start = Request::Start {
        name: Name::of(b"THERM"),
    };
    let share = Request::Share {
        name: Name::of(b"GUIDE.LIMITS"),
    };
    let (_, started) = shared.call_shown(rt, seat, start, &mut out)?;
    let (_, shared) = shared.call_shown(rt, seat, share, &mut out)?;
    Ok([started, shared])
}

/// Reads the limits through an address, which is given back then.
#[tactic(auto, using(tbl_live::proofs::SeatLemmas::fits_actor, tbl_live::proofs::SeatLemmas::same_then, tbl_live::proofs::SeatLemmas::still_app))]
pub(crate) fn read_limits<R: Wait>(
    rt: &R,
    shared: &Shared,
    seat: &mut Place,
    handle: u16,
    out: &mut Bytes,
) -> Result<[u8; LIMITS], Stop>
    requires app { IsAppOf shared.now.service.of seat.old }
    ensures same { IsSame seat.old seat.new }
{
    let read = Request::Read {
        handle,
        offset: 0,
        len: LIMITS as u32,
    };
    shared.call(rt, seat, Request::Get { handle }, out)?;
    shared.call(rt, seat, read, out)?;
    let mut limits = [0; LIMITS];
    if let Ok(bytes) = <[u8; LIMITS]>::try_from(out.bytes()) {
        limits = bytes;
    }
    shared.call(rt, seat, Request::Release { handle }, out)?;
    Ok(limits)
}

/// Reads the limits again and again. The application that owns them does each time what the ground has requested.
#[tactic(auto, using(tbl_live::proofs::SeatLemmas::fits_actor, tbl_live::proofs::SeatLemmas::same_then, tbl_live::proofs::SeatLemmas::still_app))]
pub(crate) fn read_often<R: Wait>(
    rt: &R,
    alloc: Global,
    shared: &Shared,
    seat: &mut Place,
    handle: u16,
) -> Result<Reads, Stop>
    requires app { IsAppOf shared.now.service.of seat.old }
    ensures same { IsSame seat.old seat.new }
{
    let mut out = Bytes::make(alloc, REPLY_LIMIT)?;
    let mut reads = Reads { whole: 0, mixed: 0 };
    'reads: for _ in 0..READS {
        let limits = read_limits(rt, shared, seat, handle, &mut out)?;
        if limits == [1; LIMITS] || limits == [2; LIMITS] {
            reads.whole = reads.whole.saturating_add(1);
        } else {
            reads.mixed = reads.mixed.saturating_add(1);
        }
        if handle == GUIDANCE_HANDLE {
            shared.call(rt, seat, Request::Manage { handle }, &mut out)?;
        }
    }
    Ok(reads)
}

/// Does what the ground has requested, and reads the limits once more.
#[tactic(auto, using(tbl_live::proofs::SeatLemmas::fits_actor, tbl_live::proofs::SeatLemmas::same_then, tbl_live::proofs::SeatLemmas::still_app))]
pub(crate) fn read_last<R: Wait>(
    rt: &R,
    alloc: Global,
    shared: &Shared,
    seat: &mut Place,
    handle: u16,
) -> Result<[u8; LIMITS], Stop>
    requires app { IsAppOf shared.now.service.of seat.old }
    ensures same { IsSame seat.old seat.new }
{
    let mut out = Bytes::make(alloc, REPLY_LIMIT)?;
    if handle == GUIDANCE_HANDLE {
        shared.call(rt, seat, Request::Manage { handle }, &mut out)?;
    }
    read_limits(rt, shared, seat, handle, &mut out)
}

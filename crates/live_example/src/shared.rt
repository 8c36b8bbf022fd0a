//! What all threads share: the service, and the board on which their receipts stay.

ghost use Rattle.std.specs.Prelude.{◌≡◌, IfOk};
ghost use Rattle.tbl_kinds.specs.Requests.{Fits};
ghost use Rattle.tbl_live.specs.Boards.{IsOfBoard};
ghost use Rattle.tbl_live.specs.Seats.{IsAppOf, IsSame};

use shipped_kit::FirstByte;
use std::alloc::{AllocError, AllocFailed};
use std::io;
use std::sync::Wait;
use tbl_core::Core;
use tbl_fakes::CalmBank;
use tbl_kinds::{Bytes, Memory, Request, Status};
use tbl_live::{Board, CallFault, REPLY_LIMIT, Receipt, Seat, Service, Ticket};

/// A seat at the service of this program.
pub(crate) type Place = Seat<CalmBank, FirstByte, Core<CalmBank, FirstByte>>;

/// The service and the board.
#[derive(Drop)]
pub(crate) struct Shared {
    pub(crate) service: Service<CalmBank, FirstByte, Core<CalmBank, FirstByte>>,
    pub(crate) board: Board,
}

/// Why a thread stops.
#[derive(Drop)]
pub(crate) enum Stop {
    /// Memory ran out, for a request or on the board.
    Memory,
    /// The service plays no further request.
    Refused,
    /// The text couldn't be written.
    Unwritten,
}

impl From<Memory> for Stop {
    fn from(_memory: Memory) -> Stop {
        Stop::Memory
    }
}

impl From<AllocError> for Stop {
    fn from(_error: AllocError) -> Stop {
        Stop::Memory
    }
}

impl<T: Drop> From<AllocFailed<T>> for Stop {
    fn from(_error: AllocFailed<T>) -> Stop {
        Stop::Memory
    }
}

impl From<io::Error> for Stop {
    fn from(_error: io::Error) -> Stop {
        Stop::Unwritten
    }
}

impl Shared {
    /// Makes a call. What it read is in `out` then.
    #[tactic(auto, using(tbl_live::proofs::SeatLemmas::still_app))]
    pub(crate) fn call<R: Wait>(
        &self,
        rt: &R,
        seat: &mut Place,
        request: Request,
        out: &mut Bytes,
    ) -> Result<Receipt, Stop>
        requires own { seat.old.of ≡ self.now.service.of }
        requires fits { Fits seat.old.actor request }
        ensures same { IsSame seat.old seat.new }
        ensures app { IsAppOf self.now.service.of seat.old → IsAppOf self.now.service.of seat.new }
    {
        out.clear();
        out.reserve(REPLY_LIMIT)?;
        match self.service.call(rt, seat, request, out) {
            Ok(receipt) => Ok(receipt),
            Err(CallFault::Memory) => Err(Stop::Memory),
            Err(_) => Err(Stop::Refused),
        }
    }

    /// Makes a call whose receipt stays on the board.
    pub(crate) fn call_shown<R: Wait>(
        &self,
        rt: &R,
        seat: &mut Place,
        request: Request,
        out: &mut Bytes,
    ) -> Result<(Status, Ticket), Stop>
        requires own { seat.old.of ≡ self.now.service.of }
        requires fits { Fits seat.old.actor request }
        ensures same { IsSame seat.old seat.new }
        ensures app { IsAppOf self.now.service.of seat.old → IsAppOf self.now.service.of seat.new }
        ensures ticket { IfOk result (λ told. IsOfBoard self.now.board told.1) }
    {
        let receipt = self.call(rt, seat, request, out)?;
        match self.board.publish(rt, receipt) {
            Ok(ticket) => Ok((receipt.status(), ticket)),
            Err(_) => Err(Stop::Memory),
        }
    }
}

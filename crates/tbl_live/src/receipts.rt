//! What a call gives its caller.

ghost use Rattle.std.specs.Prelude.{◌≡◌};

use tbl_core::StepFault;
use tbl_kinds::{Actor, Status};

/// The place of a call in the history, and how it was answered.
#[derive(Clone, Copy, PartialEq, Eq)]
pub struct Receipt {
    pub(crate) place: u64,
    pub(crate) actor: Actor,
    pub(crate) status: Status,
    pub(crate) detail: u32,
}

impl Receipt {
    /// The number of entries before the call's.
    pub fn place(&self) -> u64
        ensures { result ≡ self.now.place }
    {
        self.place
    }

    /// Who called.
    pub fn actor(&self) -> Actor
        ensures { result ≡ self.now.actor }
    {
        self.actor
    }

    /// What the call was answered with.
    pub fn status(&self) -> Status
        ensures { result ≡ self.now.status }
    {
        self.status
    }

    /// What the status is about: a handle, a verdict, a function code. 0 if nothing is named.
    pub fn detail(&self) -> u32
        ensures { result ≡ self.now.detail }
    {
        self.detail
    }
}

/// Why a call has no receipt.
#[derive(Clone, Copy, PartialEq, Eq)]
pub enum CallFault {
    /// A boot in an earlier call failed or was stopped, as this says. The service plays no further request.
    Ended(StepFault),
    /// There is no room for the call. Over a `Core` its history has as many entries as it may have, which is `count`. Over a `Lasting`
    /// a table has had as many images as can be counted, which is `count`: a reset, which is played, makes room by it. Or so many
    /// requests were played, 2^61 - 1.
    Full { count: u64 },
    /// The service booted in this call, and that boot failed or was stopped. The call is the last entry of the history, and the bytes of
    /// its reply were appended.
    Step(StepFault),
    /// Memory ran out. Nothing was changed.
    Memory,
}

use tbl_outside::Failed;
use thiserror::Error;

/// How a write of a call broke off. The call did nothing after it.
#[derive(Clone, Copy, Debug, PartialEq, Eq, Error)]
pub enum BankFault {
    /// The bank failed.
    #[error("the bank failed")]
    Fault {
        /// Whether the write was of a gate byte.
        gate: bool,
        /// Whether it was of the gate byte of a doubtful block that is closed before another is made.
        old: bool,
    },
    /// The processor was reset. The bank serves again.
    #[error("the processor was reset")]
    Stopped {
        /// Whether the write was of a gate byte.
        gate: bool,
        /// Whether it was of the gate byte of a doubtful block that is closed before another is made.
        old: bool,
    },
}

impl From<Failed> for BankFault {
    ghost use Rattle.std.specs.Prelude.{◌≡◌, false};
    ghost use Rattle.cds_store.specs.declared.fault.BankFault.TheVariants as fault;

    ghost from_gives = { λ _ e. e ≡ fault.Fault false false };

    /// A read failed, so no gate byte was written.
    fn from(_failed: Failed) -> BankFault {
        BankFault::Fault {
            gate: false,
            old: false,
        }
    }
}

/// Why no block was reserved.
#[derive(Clone, Copy, Debug, PartialEq, Eq, Error)]
pub enum ReserveFault {
    /// No slot is free, or no place for a block of this size. Nothing was written.
    #[error("the store has no room for the block")]
    NoRoom,
    /// A write broke off.
    #[error("{0}")]
    Bank(BankFault),
}

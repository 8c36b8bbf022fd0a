use hex::FromHexError;
use std::alloc::{AllocError, AllocFailed};
use std::fmt;
use tbl_kinds::Memory;

/// Why a row wasn't tried to its end, or how it failed.
#[derive(Drop)]
pub enum CaseFault {
    /// Memory ran out.
    Memory,
    /// The row can't be read.
    Unreadable,
    /// Something else came than the row states: what came.
    Differs(String),
}

impl From<Memory> for CaseFault {
    fn from(_memory: Memory) -> CaseFault {
        CaseFault::Memory
    }
}

impl From<AllocError> for CaseFault {
    fn from(_error: AllocError) -> CaseFault {
        CaseFault::Memory
    }
}

impl<T: Drop> From<AllocFailed<T>> for CaseFault {
    fn from(_error: AllocFailed<T>) -> CaseFault {
        CaseFault::Memory
    }
}

impl From<FromHexError> for CaseFault {
    fn from(error: FromHexError) -> CaseFault {
        match error {
            FromHexError::OutOfMemory => CaseFault::Memory,
            _ => CaseFault::Unreadable,
        }
    }
}

impl fmt::Display for CaseFault {
    fn fmt<W: fmt::Write>(&self, f: &mut fmt::Formatter<W>) -> fmt::Result {
        match self {
            CaseFault::Memory => f.write_str("out of memory"),
            CaseFault::Unreadable => f.write_str("it can't be read"),
            CaseFault::Differs(came) => write!(f, "{came}"),
        }
    }
}

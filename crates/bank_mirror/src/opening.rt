//! An opening of two banks as one: afterwards both hold the same, or one of them is out.

ghost use Rattle.std.specs.Prelude.{◌≡◌, length};
ghost use Rattle.bank_mirror.specs.Pairs.{BothTell, front_of};
ghost use Rattle.bank_mirror.specs.BanksInUse.{IsHeld, in_use_alone};
ghost use Rattle.bank_mirror.specs.Openings.{EndsCalls, EndsOpening};

use crate::banks::Banks;
use crate::copies::PIECE;
use crate::in_use::{Alone, InUse};
use std::alloc::{AllocError, Global};
use tbl_outside::{Bank, Failed, Written};
use thiserror::Error;

/// Why two banks weren't opened as one.
#[derive(Clone, Copy, Debug, PartialEq, Eq, Error)]
pub enum OpenFault {
    /// A bank failed in a read.
    #[error("a bank failed")]
    Fault,
    /// The processor was reset in a write.
    #[error("the processor was reset")]
    Stopped,
    /// Memory ran out. Neither bank was called.
    #[error("out of memory")]
    Memory,
    /// The first bank is blank and the second has a live store, over which it would be copied. Only `Mirror::open_checked`
    /// answers so.
    #[error("the first bank is blank")]
    Blank,
}

impl From<AllocError> for OpenFault {
    ghost use Rattle.std.specs.Prelude.{◌≡◌};
    ghost use Rattle.bank_mirror.specs.declared.opening.OpenFault.TheVariants as fault;

    ghost from_gives = { λ _ e. e ≡ fault.Memory };

    fn from(_error: AllocError) -> OpenFault {
        OpenFault::Memory
    }
}

/// Which bank is in after an opening, and whether its write of the mark failed.
#[derive(Clone, Copy)]
pub(crate) struct Opened {
    pub(crate) in_use: InUse,
    pub(crate) mark_failed: bool,
}

impl<A: Bank, B: Bank> Banks<A, B> {
    /// Makes both hold what they hold together. All memory that it needs is taken before the first call.
    pub(crate) fn open(&mut self, alloc: Global) -> Result<Opened, OpenFault>
        ensures { EndsOpening A.Bank B.Bank self.old self.new result }
    {
        let mut buffer = vec![in alloc; 0; PIECE as usize]?;
        self.agree(&mut buffer)
    }

    /// Makes both hold what they hold together, by way of a buffer.
    pub(crate) fn agree(&mut self, buffer: &mut [u8]) -> Result<Opened, OpenFault>
        requires { length buffer.old ≡ PIECE }
        ensures { EndsCalls A.Bank B.Bank self.old self.new result }
    {
        match self.good_one() {
            Ok(good) => self.copy_good(good, buffer),
            Err(Failed) => Err(OpenFault::Fault),
        }
    }

    /// Copies the good one, as the mark says, over the other one. If that is the first, the mark is taken away last.
    fn copy_good(&mut self, good: Alone, buffer: &mut [u8]) -> Result<Opened, OpenFault>
        requires buffer { length buffer.old ≡ PIECE }
        requires held { IsHeld A.Bank B.Bank (in_use_alone good) self.old }
        ensures { EndsCalls A.Bank B.Bank self.old self.new result }
    {
        match self.copy_from(good, buffer) {
            Ok(Written::Done) => match good {
                Alone::First => Ok(Opened {
                    in_use: InUse::Both,
                    mark_failed: false,
                }),
                Alone::Second => self.clear_mark(),
            },
            Ok(Written::Failed) => Ok(Opened {
                in_use: good.in_use(),
                mark_failed: false,
            }),
            Ok(Written::Stopped) => Err(OpenFault::Stopped),
            Err(Failed) => Err(OpenFault::Fault),
        }
    }

    /// Takes the mark away, where both hold the same. After a write of it that failed it says which is in.
    fn clear_mark(&mut self) -> Result<Opened, OpenFault>
        requires held { IsHeld A.Bank B.Bank InUse.FirstOut self.old }
        requires front { BothTell A.Bank B.Bank → front_of A.Bank B.Bank self.old ≡ A.now self.old.first }
        ensures { EndsCalls A.Bank B.Bank self.old self.new result }
    {
        match self.write_mark(0) {
            Written::Done => Ok(Opened {
                in_use: InUse::Both,
                mark_failed: false,
            }),
            Written::Failed => match self.good_one() {
                Ok(good) => Ok(Opened {
                    in_use: good.in_use(),
                    mark_failed: true,
                }),
                Err(Failed) => Err(OpenFault::Fault),
            },
            Written::Stopped => Err(OpenFault::Stopped),
        }
    }
}

//! An opening in which the caller says which bank is the good one: the mark is set before anything is copied.

ghost use Rattle.std.specs.Prelude.{◌≡◌};
ghost use Rattle.bank_mirror.specs.BanksInUse.{IsHeld};
ghost use Rattle.bank_mirror.specs.Openings.{SetsMark, EndsSecond, EndsAlone};

use crate::banks::{Banks, STALE};
use crate::copies::PIECE;
use crate::in_use::{Alone, InUse};
use crate::opening::{OpenFault, Opened};
use std::alloc::Global;
use tbl_outside::{Bank, Failed, Written};

impl<A: Bank, B: Bank> Banks<A, B> {
    /// Sets the mark, unless it is set.
    pub(crate) fn set_mark(&mut self) -> Result<(), OpenFault>
        ensures { SetsMark A.Bank B.Bank self.old self.new result }
    {
        match self.good_one() {
            Ok(Alone::First) => match self.write_mark(STALE) {
                Written::Done => Ok(()),
                Written::Failed => Err(OpenFault::Fault),
                Written::Stopped => Err(OpenFault::Stopped),
            },
            Ok(Alone::Second) => Ok(()),
            Err(Failed) => Err(OpenFault::Fault),
        }
    }

    /// Sets the mark, and then makes both hold the second's front. All memory that it needs is taken before the first call.
    pub(crate) fn open_second(&mut self, alloc: Global) -> Result<Opened, OpenFault>
        ensures { EndsSecond A.Bank B.Bank self.old self.new result }
    {
        let mut buffer = vec![in alloc; 0; PIECE as usize]?;
        match self.set_mark() {
            Ok(()) => self.agree(&mut buffer),
            Err(fault) => Err(fault),
        }
    }

    /// Leaves one of both out, so that the other one goes on alone.
    pub(crate) fn leave_out(&mut self, alone: Alone) -> Result<Opened, OpenFault>
        requires { alone ≡ Alone.First → IsHeld A.Bank B.Bank InUse.SecondOut self.old }
        ensures { EndsAlone A.Bank B.Bank alone self.old self.new result }
    {
        match alone {
            Alone::First => Ok(Opened {
                in_use: InUse::SecondOut,
                mark_failed: true,
            }),
            Alone::Second => match self.set_mark() {
                Ok(()) => Ok(Opened {
                    in_use: InUse::FirstOut,
                    mark_failed: true,
                }),
                Err(fault) => Err(fault),
            },
        }
    }
}

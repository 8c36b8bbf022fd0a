//! A read of what the two banks hold together, from one that is in.

ghost use Rattle.bank_mirror.specs.BanksInUse.{in_use_alone};
ghost use Rattle.bank_mirror.specs.CallsInUse.{CanReach, ReadsInUse, ReadsStill};

use crate::banks::Banks;
use crate::in_use::{Alone, InUse};
use tbl_outside::{Bank, Failed};

/// How a read ended, and which bank is in then.
#[derive(Clone, Copy)]
pub(crate) struct ReadEnd {
    pub(crate) read: Result<(), Failed>,
    pub(crate) in_use: InUse,
}

impl<A: Bank, B: Bank> Banks<A, B> {
    /// Reads a piece, by which of the banks is in.
    pub(crate) fn read(&mut self, in_use: InUse, at: u32, into: &mut [u8]) -> ReadEnd
        requires { CanReach A.Bank B.Bank in_use self.old at into.old }
        ensures { ReadsInUse A.Bank B.Bank in_use self.old self.new at into.old into.new result }
    {
        match in_use {
            InUse::Both => ReadEnd {
                read: self.read_either(at, into),
                in_use,
            },
            InUse::FirstOut => ReadEnd {
                read: self.read_alone(Alone::Second, at, into),
                in_use,
            },
            InUse::SecondOut => ReadEnd {
                read: self.read_alone(Alone::First, at, into),
                in_use,
            },
            InUse::Unread => self.read_unread(at, into),
        }
    }

    /// Reads a piece of the good one, while the other one is out.
    fn read_alone(&mut self, good: Alone, at: u32, into: &mut [u8]) -> Result<(), Failed>
        requires { CanReach A.Bank B.Bank (in_use_alone good) self.old at into.old }
        ensures { ReadsStill A.Bank B.Bank (in_use_alone good) self.old self.new at into.old into.new result }
    {
        match good {
            Alone::First => self.read_first(at, into),
            Alone::Second => self.read_second(at, into),
        }
    }

    /// Reads a piece of the first, and where that fails of the second.
    fn read_either(&mut self, at: u32, into: &mut [u8]) -> Result<(), Failed>
        requires { CanReach A.Bank B.Bank InUse.Both self.old at into.old }
        ensures { ReadsStill A.Bank B.Bank InUse.Both self.old self.new at into.old into.new result }
    {
        match self.read_first(at, into) {
            Ok(()) => Ok(()),
            Err(Failed) => self.read_second(at, into),
        }
    }

    /// Reads the mark back, and then a piece of the one that is good by it.
    fn read_unread(&mut self, at: u32, into: &mut [u8]) -> ReadEnd
        requires { CanReach A.Bank B.Bank InUse.Unread self.old at into.old }
        ensures { ReadsInUse A.Bank B.Bank InUse.Unread self.old self.new at into.old into.new result }
    {
        match self.good_one() {
            Ok(good) => ReadEnd {
                read: self.read_alone(good, at, into),
                in_use: good.in_use(),
            },
            Err(Failed) => ReadEnd {
                read: Err(Failed),
                in_use: InUse::Unread,
            },
        }
    }
}

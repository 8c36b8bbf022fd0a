//! A write to both banks, to one of them, or to the second once the first has failed.

ghost use Rattle.std.specs.Prelude.{◌≡◌, ◌+◌, ◌≤◌, length};
ghost use Rattle.tbl_outside.specs.Bank.{Torn};
ghost use Rattle.bank_mirror.specs.Pairs.{BothTell, front_of};
ghost use Rattle.bank_mirror.specs.BanksInUse.{in_use_alone};
ghost use Rattle.bank_mirror.specs.CallsInUse.{CanReach, WritesInUse, WritesStill, WritesMarked, ended_by};

use crate::banks::{Banks, STALE};
use crate::in_use::{Alone, InUse};
use tbl_outside::{Bank, Failed, Written};

/// How a write ended, and which bank is in then.
#[derive(Clone, Copy)]
pub(crate) struct Ended {
    pub(crate) written: Written,
    pub(crate) in_use: InUse,
}

/// How a write to both ended, by the second's, after the first has taken it.
fn ended_by(second: Written) -> Ended
    ensures { result ≡ ended_by second }
{
    match second {
        Written::Done => Ended {
            written: Written::Done,
            in_use: InUse::Both,
        },
        Written::Failed => Ended {
            written: Written::Done,
            in_use: InUse::SecondOut,
        },
        Written::Stopped => Ended {
            written: Written::Stopped,
            in_use: InUse::SecondOut,
        },
    }
}

impl<A: Bank, B: Bank> Banks<A, B> {
    /// Writes over a piece, by which of the banks is in.
    pub(crate) fn write(&mut self, in_use: InUse, at: u32, bytes: &[u8]) -> Ended
        requires { CanReach A.Bank B.Bank in_use self.old at bytes.now }
        ensures { WritesInUse A.Bank B.Bank in_use self.old self.new at bytes.now result }
    {
        match in_use {
            InUse::Both => self.write_both(at, bytes),
            InUse::FirstOut => Ended {
                written: self.write_alone(Alone::Second, at, bytes),
                in_use,
            },
            InUse::SecondOut => Ended {
                written: self.write_alone(Alone::First, at, bytes),
                in_use,
            },
            InUse::Unread => self.write_unread(at, bytes),
        }
    }

    /// Writes over a piece of the good one, while the other one is out.
    fn write_alone(&mut self, good: Alone, at: u32, bytes: &[u8]) -> Written
        requires { CanReach A.Bank B.Bank (in_use_alone good) self.old at bytes.now }
        ensures { WritesStill A.Bank B.Bank (in_use_alone good) self.old self.new at bytes.now result }
    {
        match good {
            Alone::First => self.write_first(at, bytes),
            Alone::Second => self.write_second(at, bytes),
        }
    }

    /// Reads the mark back, and then writes over a piece of the one that is good by it.
    fn write_unread(&mut self, at: u32, bytes: &[u8]) -> Ended
        requires { CanReach A.Bank B.Bank InUse.Unread self.old at bytes.now }
        ensures { WritesInUse A.Bank B.Bank InUse.Unread self.old self.new at bytes.now result }
    {
        match self.good_one() {
            Ok(good) => Ended {
                written: self.write_alone(good, at, bytes),
                in_use: good.in_use(),
            },
            Err(Failed) => Ended {
                written: Written::Failed,
                in_use: InUse::Unread,
            },
        }
    }

    /// Writes over a piece of the first, and then of the second. Where the first fails, the mark goes before the second's.
    fn write_both(&mut self, at: u32, bytes: &[u8]) -> Ended
        requires { CanReach A.Bank B.Bank InUse.Both self.old at bytes.now }
        ensures { WritesInUse A.Bank B.Bank InUse.Both self.old self.new at bytes.now result }
    {
        match self.write_first(at, bytes) {
            Written::Done => ended_by(self.write_second(at, bytes)),
            Written::Failed => self.write_marked(at, bytes),
            Written::Stopped => Ended {
                written: Written::Stopped,
                in_use: InUse::SecondOut,
            },
        }
    }

    /// Sets the mark after a write of the first that failed, and then writes to the second.
    fn write_marked(&mut self, at: u32, bytes: &[u8]) -> Ended
        requires room { at + length bytes.now ≤ A.size self.old.first }
        requires torn { BothTell A.Bank B.Bank → Torn at (length bytes.now) (front_of A.Bank B.Bank self.old) (A.now self.old.first) }
        ensures { WritesMarked A.Bank B.Bank self.old self.new at bytes.now result }
    {
        match self.write_mark(STALE) {
            Written::Done => Ended {
                written: self.write_second(at, bytes),
                in_use: InUse::FirstOut,
            },
            broken => match self.good_one() {
                Ok(good) => Ended {
                    written: broken,
                    in_use: good.in_use(),
                },
                Err(Failed) => Ended {
                    written: broken,
                    in_use: InUse::Unread,
                },
            },
        }
    }
}

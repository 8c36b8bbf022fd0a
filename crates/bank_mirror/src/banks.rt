//! Both banks, and each call of one of them. What a reset may leave meanwhile is an image of that one, beside the bytes
//! of the other.

ghost use Rattle.std.specs.Prelude.{◌≡◌, ◌+◌, ◌<◌, ◌≤◌, [], length};
ghost use Rattle.bank_mirror.specs.Pairs.{Pair};
ghost use Rattle.bank_mirror.specs.Calls.{ReadsFirst, ReadsSecond, WritesFirst, WritesSecond};

use http_server::Log;
use std::marker::Model;
use tbl_outside::{Bank, Failed, Written};

/// The mark of a stale first bank: this byte in the second, right after the first one's size.
pub const STALE: u8 = 0x4C;

/// Both banks, the second larger than the first, and what both were before each call of one of them. The last takes no
/// memory: only contracts see it.
#[derive(Drop)]
pub(crate) struct Banks<A: Bank, B: Bank> {
    first: A,
    second: B,
    past: Log<A, B>,
}

impl<A: Bank, B: Bank> Model for Banks<A, B> {
    ghost use Rattle.std.specs.Prelude.{◌<◌};
    ghost use Rattle.bank_mirror.specs.Pairs.{Pair};

    ghost Value = { Pair A B };

    ghost view = { λ banks. record { first = banks.first; second = banks.second; past = banks.past.items } };

    ghost invariant = { λ banks. A.size banks.first < B.size banks.second };
}

impl<A: Bank, B: Bank> Banks<A, B> {
    /// Both, before any call.
    pub(crate) fn make(first: A, second: B) -> Banks<A, B>
        requires { A.size first < B.size second }
        ensures { result ≡ record { first = first; second = second; past = [] } }
    {
        Banks {
            first,
            second,
            past: Log::new(),
        }
    }

    /// Both again, and what they were before each call.
    pub(crate) fn end(self) -> (A, B, Log<A, B>)
        ensures { record { first = result.0; second = result.1; past = result.2.items } ≡ self }
    {
        (self.first, self.second, self.past)
    }

    /// How many bytes the first has.
    pub(crate) fn size(&self) -> u32
        ensures size { result ≡ A.size self.now.first }
        ensures larger { A.size self.now.first < B.size self.now.second }
    {
        self.first.size()
    }

    /// Reads a piece of the first.
    pub(crate) fn read_first(&mut self, at: u32, into: &mut [u8]) -> Result<(), Failed>
        requires { at + length into.old ≤ A.size self.old.first }
        ensures { ReadsFirst A.Bank B.Bank self.old self.new at into.old into.new result }
    {
        let past = self.past.and(&self.first, &self.second);
        let read = self.first.read_at(at, into);
        self.past = past;
        read
    }

    /// Reads a piece of what the second has for the first, with its mark.
    pub(crate) fn read_second(&mut self, at: u32, into: &mut [u8]) -> Result<(), Failed>
        requires { at + length into.old ≤ A.size self.old.first + 1 }
        ensures { ReadsSecond A.Bank B.Bank self.old self.new at into.old into.new result }
    {
        let past = self.past.and(&self.first, &self.second);
        let read = self.second.read_at(at, into);
        self.past = past;
        read
    }

    /// Writes over a piece of the first.
    pub(crate) fn write_first(&mut self, at: u32, bytes: &[u8]) -> Written
        requires { at + length bytes.now ≤ A.size self.old.first }
        ensures { WritesFirst A.Bank B.Bank self.old self.new at bytes.now result }
    {
        let past = self.past.and(&self.first, &self.second);
        let written = self.first.write_at(at, bytes);
        self.past = past;
        written
    }

    /// Writes over a piece of what the second has for the first, with its mark.
    pub(crate) fn write_second(&mut self, at: u32, bytes: &[u8]) -> Written
        requires { at + length bytes.now ≤ A.size self.old.first + 1 }
        ensures { WritesSecond A.Bank B.Bank self.old self.new at bytes.now result }
    {
        let past = self.past.and(&self.first, &self.second);
        let written = self.second.write_at(at, bytes);
        self.past = past;
        written
    }
}

// Two banks as one bank.
ghost use Rattle.std.specs.Prelude.{◌≡◌, ◌+◌, ◌<◌, ◌≤◌, if◌then◌else◌, length, IfOk};
ghost use Rattle.tbl_outside.specs.Counts.{risen};
ghost use Rattle.bank_mirror.specs.Begun.{OpensBoth, OpensChecked, TakesSecond, MayGoAlone, GoesAlone, IsMade, unused};
ghost use Rattle.bank_mirror.specs.Mirrors.{IsMirror, fails, ReadsBoth, WritesBoth};

use crate::banks::Banks;
use crate::in_use::{Alone, InUse};
use crate::opening::{OpenFault, Opened};
use http_server::Log;
use std::alloc::Global;
use std::marker::Model;
use tbl_outside::{Bank, Failed, Written};

/// Two banks as one bank of the first one's size, which loses nothing while one of them fails.
#[derive(Drop)]
pub struct Mirror<A: Bank, B: Bank> {
    banks: Banks<A, B>,
    in_use: InUse,
    mark_failed: bool,
    faults: u64,
}

impl<A: Bank, B: Bank> Model for Mirror<A, B> {
    ghost use Rattle.bank_mirror.specs.Mirrors.{Mirrored, IsMirror};

    ghost Value = { Mirrored A B };

    ghost view = { λ m. record { pair = m.banks; in_use = m.in_use; mark_failed = m.mark_failed; faults = m.faults } };

    ghost invariant = { λ m. IsMirror A.Bank B.Bank (record { pair = m.banks; in_use = m.in_use; mark_failed = m.mark_failed; faults = m.faults }) };
}

/// Two banks that weren't opened as one, handed back beside the cause.
#[derive(Drop)]
pub struct OpenBack<A: Bank, B: Bank> {
    pub cause: OpenFault,
    pub first: A,
    pub second: B,
    /// What both were before each call of one of them. It takes no memory: only contracts see it.
    pub past: Log<A, B>,
}

/// A mirror of both banks as they were opened, or both handed back with the cause.
fn made<A: Bank, B: Bank>(
    banks: Banks<A, B>,
    opened: Result<Opened, OpenFault>,
) -> Result<Mirror<A, B>, OpenBack<A, B>>
    requires { IfOk opened (λ o. IsMirror A.Bank B.Bank (unused banks o)) }
    ensures { IsMade banks opened result }
{
    match opened {
        Ok(opened) => Ok(Mirror {
            banks,
            in_use: opened.in_use,
            mark_failed: opened.mark_failed,
            faults: 0,
        }),
        Err(cause) => {
            let (first, second, past) = banks.end();
            Err(OpenBack {
                cause,
                first,
                second,
                past,
            })
        }
    }
}

impl<A: Bank, B: Bank> Mirror<A, B> {
    /// Opens two banks as one, the second larger than the first. Where the mark says that the first is stale, the second's
    /// front is copied over the first and the mark is taken away last, else the first is copied over the second's front. A
    /// bank in which a write of the copy fails is out. All memory that it needs is taken before the first call.
    pub fn open(alloc: Global, first: A, second: B) -> Result<Mirror<A, B>, OpenBack<A, B>>
        requires { A.size first < B.size second }
        ensures opens { OpensBoth A.Bank B.Bank first second result }
    {
        let mut banks = Banks::make(first, second);
        let opened = banks.open(alloc);
        made(banks, opened)
    }

    /// Opens two banks as one, as `open` does, unless the first is blank and the second has a live store: the first one's bytes
    /// would be copied over the store. It answers `Blank` then and hands both back as they were. Take it at each start, with the
    /// mark that a live store begins with (`LIVE_MARK` of `cds_layout`).
    pub fn open_checked(
        alloc: Global,
        first: A,
        second: B,
        live_mark: &[u8; 3],
    ) -> Result<Mirror<A, B>, OpenBack<A, B>>
        requires room { A.size first < B.size second }
        requires front { 3 ≤ A.size first }
        ensures opens { OpensChecked A.Bank B.Bank live_mark.now first second result }
    {
        let mut banks = Banks::make(first, second);
        let opened = banks.open_checked(alloc, live_mark);
        made(banks, opened)
    }

    /// Opens two banks as one, of which the second is the good one, whatever its mark says: the mark is set first, and then
    /// the second's front is copied over the first, as `open` does it. A write of the mark that failed ends it with `Fault`.
    /// All memory that it needs is taken before the first call.
    pub fn take_second(alloc: Global, first: A, second: B) -> Result<Mirror<A, B>, OpenBack<A, B>>
        requires { A.size first < B.size second }
        ensures takes { TakesSecond A.Bank B.Bank first second result }
    {
        let mut banks = Banks::make(first, second);
        let opened = banks.open_second(alloc);
        made(banks, opened)
    }

    /// Opens two banks as one of which one goes on alone, as the other doesn't answer. The second alone is marked as the good
    /// one first. The first alone needs no call, and may be taken only if the mark isn't set: the second can't be asked. So
    /// the next opening of both copies the one that went on over the other. Each failure of the one that goes on is told.
    pub fn open_alone(first: A, second: B, alone: Alone) -> Result<Mirror<A, B>, OpenBack<A, B>>
        requires room { A.size first < B.size second }
        requires fresh { MayGoAlone A.Bank B.Bank alone first second }
        ensures goes { GoesAlone A.Bank B.Bank alone first second result }
    {
        let mut banks = Banks::make(first, second);
        let opened = banks.leave_out(alone);
        made(banks, opened)
    }

    /// Which of the two is in.
    pub fn in_use(&self) -> InUse
        ensures { result ≡ self.now.in_use }
    {
        self.in_use
    }

    /// Both banks back, the first before the second.
    pub fn end(self) -> (A, B)
        ensures { result ≡ (self.pair.first, self.pair.second) }
    {
        let (first, second, _past) = self.banks.end();
        (first, second)
    }
}

/// A count of calls that failed, after one more call.
fn counted(faults: u64, failed: bool) -> u64
    ensures { result ≡ (if failed then risen faults else faults) }
{
    if failed {
        faults.saturating_add(1)
    } else {
        faults
    }
}

/// Whether a write failed.
fn is_failed(written: Written) -> bool
    ensures { result ≡ fails written }
{
    match written {
        Written::Failed => true,
        Written::Done | Written::Stopped => false,
    }
}

impl<A: Bank, B: Bank> Bank for Mirror<A, B> {
    ghost use Rattle.std.proofs.Common.{◌≡◌, [], length, inl, refl, ◌∙◌};
    ghost use Rattle.bank_mirror.specs.Pairs.{pair_of, bytes_of, BothTell, BothTellMoments};
    ghost use Rattle.bank_mirror.specs.Moments.{MayLeave};
    ghost use Rattle.bank_mirror.specs.Mirrors.{moment_of, LeftSinceOf, faults_of, stops_in};
    ghost use Rattle.bank_mirror.specs.Laws.{length-pair_of, none_since};

    ghost tells = { BothTell A.Bank B.Bank };

    ghost tells_moments = { BothTellMoments A.Bank B.Bank };

    ghost size = { λ m. A.size m.pair.first };

    ghost now = { λ m. bytes_of A.Bank B.Bank m.pair };

    ghost may_leave = { λ m. MayLeave A.Bank B.Bank m.pair };

    ghost clock = { moment_of };

    ghost left_since = { LeftSinceOf A.Bank B.Bank };

    ghost faults = { faults_of };

    ghost stops = { stops_in A.Bank B.Bank };

    ghost tells_calls = { λ _. ⊥ };

    ghost calls = { λ _. [] };

    ghost tells_both = { λ told. (A.tells_both told.0, B.tells_both told.1) };

    ghost whole = { λ m told. length-pair_of (A.now m.pair.first) (B.now m.pair.second) ∙ A.whole m.pair.first told.0 };

    ghost leaves_now = { λ m told.
        (A.now m.pair.first, B.now m.pair.second, A.leaves_now m.pair.first told.0, B.leaves_now m.pair.second told.1, refl) };

    ghost leaves_only_now = { λ m image told may. may.4
        ∙ (λ i. pair_of (A.leaves_only_now m.pair.first may.0 told.0 may.2 i) (B.leaves_only_now m.pair.second may.1 told.1 may.3 i)) };

    ghost counts_now = { λ m t image told le may. inl may };

    ghost only_now = { λ m image told left. none_since ⟦<A as Bank>⟧ ⟦<B as Bank>⟧ m.pair image left };

    fn size(&self) -> u32
        ensures { result ≡ A.size self.now.pair.first }
    {
        self.banks.size()
    }

    fn read_at(&mut self, at: u32, into: &mut [u8]) -> Result<(), Failed>
        requires { at + length into.old ≤ A.size self.old.pair.first }
        ensures reads { ReadsBoth A.Bank B.Bank self.old self.new at into.old into.new result }
    {
        let end = self.banks.read(self.in_use, at, into);
        self.in_use = end.in_use;
        self.faults = counted(self.faults, end.read.is_err());
        end.read
    }

    fn write_at(&mut self, at: u32, bytes: &[u8]) -> Written
        requires { at + length bytes.now ≤ A.size self.old.pair.first }
        ensures writes { WritesBoth A.Bank B.Bank self.old self.new at bytes.now result }
    {
        let ended = self.banks.write(self.in_use, at, bytes);
        self.in_use = ended.in_use;
        self.faults = counted(self.faults, is_failed(ended.written));
        ended.written
    }
}

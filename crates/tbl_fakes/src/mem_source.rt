// A source in memory.
ghost use Rattle.std.specs.Prelude.{◌≡◌, [], Some, None, IfOk};
ghost use Rattle.tbl_outside.specs.Streams.{after_read};
ghost use Rattle.tbl_fakes.specs.Calls.{none_made};
ghost use Rattle.tbl_fakes.specs.Contents.{unread, Fills, ReadsOn};

use crate::plan::Plan;
use crate::supply::Supply;
use std::alloc::Global;
use std::marker::Model;
use tbl_kinds::{Bytes, Memory};
use tbl_outside::{Failed, HowFar, Source};

/// A source of given bytes whose reads fail if their number is listed, or from a number of bytes on. A read that fails moves nothing.
#[derive(Drop)]
pub struct MemSource {
    supply: Supply,
    plan: Plan,
    /// How many bytes come before each read fails.
    cut: Option<usize>,
    how_far: HowFar,
}

impl Model for MemSource {
    ghost use Rattle.tbl_fakes.specs.Contents.{Reading};

    ghost Value = { Reading };

    ghost view = { λ s. record { left = s.supply; calls = s.plan; cut = s.cut; how_far = s.how_far } };
}

/// How far a source is read after one read more, which gave so many bytes.
fn after_read(count: usize, before: HowFar) -> HowFar
    ensures { result ≡ after_read count before }
{
    match before {
        HowFar::Going => {
            if count == 0 {
                HowFar::Ended
            } else {
                HowFar::Going
            }
        }
        HowFar::Ended => HowFar::Overrun,
        HowFar::Overrun => HowFar::Overrun,
    }
}

impl MemSource {
    /// A source of these bytes. Reads are numbered from 1.
    pub fn make(alloc: Global, bytes: Bytes, fails: &[u32]) -> Result<MemSource, Memory>
        ensures { IfOk result (λ s. s ≡ unread bytes.list (none_made fails.now) None) }
    {
        Ok(MemSource {
            supply: Supply::of(bytes),
            plan: Plan::make(alloc, fails)?,
            cut: None,
            how_far: HowFar::Going,
        })
    }

    /// A source of these bytes that is cut: each read fails once this many were taken, and none gives a byte after them. It
    /// takes no memory.
    pub fn cut(bytes: Bytes, after: u32) -> MemSource
        ensures { result ≡ unread bytes.list (none_made []) (Some after) }
    {
        let plan = Plan::empty(bytes.allocator());
        MemSource {
            supply: Supply::of(bytes),
            plan,
            cut: Some(after as usize),
            how_far: HowFar::Going,
        }
    }

    /// The bytes that are still to come.
    pub fn left_bytes(&self) -> &[u8]
        ensures { result.now ≡ self.now.left }
    {
        self.supply.rest()
    }

    /// How many reads failed.
    pub fn faults(&self) -> u64
        ensures { result ≡ self.now.calls.faults }
    {
        self.plan.faults
    }

    /// How far it was read.
    pub fn how_far(&self) -> HowFar
        ensures { result ≡ self.now.how_far }
    {
        self.how_far
    }

    /// Moves as much as it can, and no byte after the cut.
    fn fill(&mut self, into: &mut [u8]) -> usize
        ensures { Fills into.old into.new self.old self.new result }
    {
        match self.cut {
            None => self.supply.fill_up_to(into, into.len()),
            Some(bytes) => {
                let count = self.supply.fill_up_to(into, bytes);
                self.cut = Some(bytes - count);
                count
            }
        }
    }
}

impl Source for MemSource {
    ghost left = { λ s. Some s.left };

    ghost faults = { λ s. s.calls.faults };

    ghost how_far = { λ s. s.how_far };

    fn read(&mut self, into: &mut [u8]) -> Result<usize, Failed>
        ensures { ReadsOn into.old into.new self.old self.new result }
    {
        let listed = self.plan.fails_next();
        if listed || self.cut == Some(0) {
            self.plan.fault();
            self.how_far = after_read(0, self.how_far);
            return Err(Failed);
        }
        let count = self.fill(into);
        self.how_far = after_read(count, self.how_far);
        Ok(count)
    }
}

// A sink in memory.
ghost use Rattle.std.specs.Prelude.{◌≡◌, [], Some, IfOk};
ghost use Rattle.tbl_fakes.specs.Contents.{untaken, FillsRoom, TakesOn};

use crate::plan::Plan;
use std::alloc::Global;
use std::marker::Model;
use tbl_kinds::{Bytes, Memory};
use tbl_outside::{Failed, Sink};

/// A sink that keeps what it takes, has room for a number of bytes, and whose writes fail if their number is listed.
#[derive(Drop)]
pub struct MemSink {
    taken: Bytes,
    room: usize,
    plan: Plan,
}

impl Model for MemSink {
    ghost use Rattle.std.specs.Prelude.{◌≤◌};
    ghost use Rattle.tbl_fakes.specs.Contents.{Writing};

    ghost Value = { Writing };

    ghost view = { λ s. record { taken = s.taken.list; room = s.room; calls = s.plan } };

    ghost invariant = { λ s. s.room ≤ s.taken.spare };
}

impl MemSink {
    /// A sink with room for this many bytes, all of it reserved here. Writes are numbered from 1.
    pub fn make(alloc: Global, room: u32, fails: &[u32]) -> Result<MemSink, Memory>
        ensures { IfOk result (λ s. s ≡ untaken room fails.now) }
    {
        let room = room as usize;
        Ok(MemSink {
            taken: Bytes::make(alloc, room)?,
            room,
            plan: Plan::make(alloc, fails)?,
        })
    }

    /// A sink that is cut: it takes this many bytes, and each write fails that has more. Their room is reserved here.
    pub fn cut(alloc: Global, after: u32) -> Result<MemSink, Memory>
        ensures { IfOk result (λ s. s ≡ untaken after []) }
    {
        MemSink::make(alloc, after, &[])
    }

    /// The bytes that it took.
    pub fn taken(&self) -> &[u8]
        ensures { result.now ≡ self.now.taken }
    {
        self.taken.bytes()
    }

    /// How many writes failed.
    pub fn faults(&self) -> u64
        ensures { result ≡ self.now.calls.faults }
    {
        self.plan.faults
    }

    // Takes as much as there is room for, and says whether that was all.
    fn fill(&mut self, bytes: &[u8]) -> bool
        ensures { FillsRoom bytes.now self.old self.new result }
    {
        let fitting = bytes.len().min(self.room);
        self.taken.append(&bytes[..fitting]);
        self.room -= fitting;
        fitting == bytes.len()
    }
}

impl Sink for MemSink {
    ghost taken = { λ s. Some s.taken };

    ghost faults = { λ s. s.calls.faults };

    fn write(&mut self, bytes: &[u8]) -> Result<(), Failed>
        ensures { TakesOn bytes.now self.old self.new result }
    {
        if self.plan.fails_next() {
            self.plan.fault();
            return Err(Failed);
        }
        if self.fill(bytes) {
            return Ok(());
        }
        self.plan.fault();
        Err(Failed)
    }
}

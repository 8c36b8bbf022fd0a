// A bank in memory.
ghost use Rattle.std.specs.Prelude.{◌≡◌, ◌+◌, ◌<◌, ◌≤◌, ◌^◌, List, ℕ, ⊤, IfOk, false, length, map, refl};
ghost use Rattle.std.proofs.Common.{inl};
ghost use Rattle.tbl_fakes.specs.Troubles.{none_yet};
ghost use Rattle.tbl_fakes.specs.Banks.{faults_of, stops_of, unused, moment, MayHaveLeft, only_bytes, ReadsBank, WritesBank};

use crate::notes::Notes;
use crate::past::{Past, Span};
use crate::troubles::{Break, Troubles, reach, write_over};
use std::alloc::Global;
use std::marker::Model;
use tbl_kinds::Memory;
use tbl_outside::{Bank, Failed, Written};

/// For how many reads a bank in memory has room in its record.
const READS_NOTED: usize = 4_096;

/// Preserved memory whose writes break off, and whose reads fail, if their number says so. It keeps a record of its writes with what was
/// there before them, which gives its moments, and one of the calls that it got.
#[derive(Drop)]
pub struct MemBank {
    bytes: Vec<u8>,
    past: Past,
    notes: Notes,
    troubles: Troubles,
}

impl Model for MemBank {
    ghost use Rattle.std.specs.Prelude.{◌<◌, ◌^◌, length};
    ghost use Rattle.tbl_fakes.specs.Past.{passed};
    ghost use Rattle.tbl_fakes.specs.Banks.{Banking};

    ghost Value = { Banking };

    ghost view = { λ b. record {
      bytes = b.bytes.items;
      past = passed b.past.spans b.past.olds b.bytes.items;
      writes_left = b.past.writes;
      room = b.past.room;
      notes = b.notes;
      trouble = b.troubles;
    } };

    ghost invariant = { λ b. length b.bytes.items < 2 ^ 32 };
}

impl MemBank {
    /// A bank of these bytes, with room in its record for so many writes, so many bytes written in all, and 4,096 reads.
    /// Writes and reads are numbered from 1. All memory that it needs is taken here.
    pub fn make(
        alloc: Global,
        bytes: Vec<u8>,
        breaks: &[Break],
        bad_reads: &[u32],
        writes: u32,
        room: u32,
    ) -> Result<MemBank, Memory>
        requires { length bytes.items < 2 ^ 32 }
        ensures { IfOk result (λ b. b ≡ unused bytes.items (none_yet breaks.now bad_reads.now) writes room) }
    {
        Ok(MemBank {
            bytes,
            past: Past::make(alloc, writes, room)?,
            notes: Notes::make(alloc, writes as usize + READS_NOTED, room)?,
            troubles: Troubles::make(alloc, breaks, bad_reads)?,
        })
    }

    /// Its bytes.
    pub fn bytes(&self) -> &[u8]
        ensures { result.now ≡ self.now.bytes }
    {
        self.bytes.as_slice()
    }

    /// How often it failed.
    pub fn faults(&self) -> u64
        ensures { result ≡ self.now.trouble.faults }
    {
        self.troubles.faults
    }

    /// How often it was stopped.
    pub fn stops(&self) -> u64
        ensures { result ≡ self.now.trouble.stops }
    {
        self.troubles.stops
    }

    /// How many writes it was asked for, those included for which it had no room.
    pub fn write_count(&self) -> u64
        ensures { result ≡ self.now.trouble.writes }
    {
        self.troubles.writes
    }

    /// The ranges of the writes for which it had room, oldest first.
    pub fn spans(&self) -> &[Span]
        ensures { result.now ≡ map (λ write. write.span) self.now.past }
    {
        self.past.spans()
    }
}

impl Bank for MemBank {
    ghost tells = { ⊤ };

    ghost tells_moments = { ⊤ };

    ghost size = { λ b. length b.bytes };

    ghost now = { λ b. b.bytes };

    ghost may_leave = { λ b image. image ≡ b.bytes };

    ghost clock = { moment };

    ghost left_since = { MayHaveLeft };

    ghost faults = { faults_of };

    ghost stops = { stops_of };

    ghost tells_calls = { λ b. b.notes.missed ≡ false };

    ghost calls = { λ b. b.notes.calls };

    ghost tells_both = { λ told. told };

    ghost whole = { λ bank told. refl };

    ghost leaves_now = { λ bank told. refl };

    ghost leaves_only_now = { λ bank image told now. now };

    ghost counts_now = { λ bank t image told le now. inl now };

    ghost only_now = { λ bank image told left. only_bytes bank image left };

    fn size(&self) -> u32
        ensures { result ≡ length self.now.bytes }
    {
        self.bytes.len() as u32
    }

    fn read_at(&mut self, at: u32, into: &mut [u8]) -> Result<(), Failed>
        requires { at + length into.old ≤ length self.old.bytes }
        ensures { ReadsBank at into.old into.new self.old self.new result }
    {
        self.notes.note_read(at, into.len() as u32);
        if self.troubles.next_read_fails() {
            self.troubles.fault();
            return Err(Failed);
        }
        let from = at as usize;
        into.copy_from_slice(&self.bytes[from..from + into.len()]);
        Ok(())
    }

    fn write_at(&mut self, at: u32, bytes: &[u8]) -> Written
        requires { at + length bytes.now ≤ length self.old.bytes }
        ensures { WritesBank at bytes.now self.old self.new result }
    {
        self.notes.note_write(at, bytes);
        let planned = self.troubles.next_write();
        if !self.past.has_room(bytes.len()) {
            self.troubles.fault();
            return Written::Failed;
        }
        let from = at as usize;
        let reach = reach(planned, bytes.len());
        self.past
            .keep(at, &self.bytes.as_slice()[from..from + bytes.len()]);
        write_over(&mut self.bytes, from, &bytes[..reach]);
        self.troubles.end_write(planned)
    }
}

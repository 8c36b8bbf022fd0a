// What goes wrong in a bank in memory, and how often it did.
ghost use Rattle.std.specs.Prelude.{◌≡◌, ◌+◌, ◌≤◌, IfOk, length};
ghost use Rattle.tbl_kinds.specs.Numbers.{patched};
ghost use Rattle.tbl_fakes.specs.Troubles.{none_yet, next_break, is_bad_read, reach_of, one_write, one_read, one_fault, EndsWrite};

use std::alloc::Global;
use std::marker::Model;
use tbl_kinds::Memory;
use tbl_outside::Written;

/// A write of a bank in memory that breaks off: its number, counted from 1, after how many of its bytes, and whether the bank is stopped
/// or fails. A number of bytes above the piece's means the whole piece. It is laid out as in C, where tbl.h has it as `tbl_write_break`.
#[repr(C)]
#[derive(Clone, Copy, PartialEq, Eq)]
pub struct Break {
    pub write: u32,
    pub after: u32,
    pub stop: bool,
}

/// The writes that break off and the reads that fail, how many of both were made, and how often the bank failed and was stopped. Each count
/// stops at 2^64 - 1.
#[derive(Drop)]
pub(crate) struct Troubles {
    breaks: Vec<Break>,
    bad_reads: Vec<u32>,
    pub(crate) writes: u64,
    reads: u64,
    pub(crate) faults: u64,
    pub(crate) stops: u64,
}

impl Model for Troubles {
    ghost use Rattle.tbl_fakes.specs.Troubles.{Trouble};

    ghost Value = { Trouble };

    ghost view = { λ t. record {
      breaks = t.breaks.items;
      bad_reads = t.bad_reads.items;
      writes = t.writes;
      reads = t.reads;
      faults = t.faults;
      stops = t.stops;
    } };
}

/// How many bytes of a piece a write takes.
pub(crate) fn reach(planned: Option<Break>, length: usize) -> usize
    ensures exact { result ≡ reach_of planned length }
    ensures within { result ≤ length }
{
    match planned {
        None => length,
        Some(broken) => (broken.after as usize).min(length),
    }
}

/// Writes a piece over bytes from a place on.
pub(crate) fn write_over(bytes: &mut Vec<u8>, at: usize, piece: &[u8])
    requires { at + length piece.now ≤ length bytes.old.items }
    ensures { bytes.new.items ≡ patched bytes.old.items at piece.now }
{
    bytes[at..at + piece.len()].copy_from_slice(piece);
}

impl Troubles {
    pub(crate) fn make(
        alloc: Global,
        breaks: &[Break],
        bad_reads: &[u32],
    ) -> Result<Troubles, Memory>
        ensures { IfOk result (λ t. t ≡ none_yet breaks.now bad_reads.now) }
    {
        Ok(Troubles {
            breaks: breaks.to_vec(alloc)?,
            bad_reads: bad_reads.to_vec(alloc)?,
            writes: 0,
            reads: 0,
            faults: 0,
            stops: 0,
        })
    }

    /// Counts a write, and says how it breaks off.
    pub(crate) fn next_write(&mut self) -> Option<Break>
        ensures answer { result ≡ next_break self.old }
        ensures counted { self.new ≡ one_write self.old }
    {
        self.writes = self.writes.saturating_add(1);
        self.breaks
            .iter()
            .copied()
            .find(|broken| u64::from(broken.write) == self.writes)
    }

    /// Says how a write ends, and counts it.
    pub(crate) fn end_write(&mut self, planned: Option<Break>) -> Written
        ensures { EndsWrite planned self.old self.new result }
    {
        match planned {
            None => Written::Done,
            Some(broken) if broken.stop => {
                self.stops = self.stops.saturating_add(1);
                Written::Stopped
            }
            Some(_) => {
                self.fault();
                Written::Failed
            }
        }
    }

    /// Counts a read, and says whether it fails.
    pub(crate) fn next_read_fails(&mut self) -> bool
        ensures answer { result ≡ is_bad_read self.old }
        ensures counted { self.new ≡ one_read self.old }
    {
        self.reads = self.reads.saturating_add(1);
        self.bad_reads
            .iter()
            .any(|number| u64::from(*number) == self.reads)
    }

    /// Counts a failure.
    pub(crate) fn fault(&mut self)
        ensures counted { self.new ≡ one_fault self.old }
        ensures no_less { self.old.faults ≤ self.new.faults }
    {
        self.faults = self.faults.saturating_add(1);
    }
}

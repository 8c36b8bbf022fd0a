// The resets at one write of the bank, after each number of its bytes.
ghost use Rattle.std.specs.Prelude.{◌≡◌, false, length, IsTrue};

use crate::plan::Plan;
use crate::play::{Fault, with_stop};
use crate::recovery::come_back;
use crate::tables::Back;
use std::alloc::{AllocError, Global};
use tbl_fakes::Span;

/// In writes of so many bytes or fewer each number of bytes is tried, whatever `--every` says.
pub(crate) const SHORT_WRITE: u32 = 64;

/// Between two lines that say how far the work is.
const STARTS_TOLD: u64 = 1_024;

/// A write of the session: its number, from 1, and its range.
#[derive(Clone, Copy)]
pub(crate) struct Write {
    pub(crate) number: u32,
    pub(crate) span: Span,
}

/// That the same came back in a table after these numbers of bytes.
#[derive(Clone, Copy)]
pub(crate) struct Run {
    /// The place of the table among those of the session.
    pub(crate) table: usize,
    pub(crate) from: u32,
    pub(crate) to: u32,
    pub(crate) back: Back,
}

/// How many resets were tried, over how many banks that differ, and what came back, for each table once a reset.
#[derive(Drop)]
pub(crate) struct Counts {
    pub(crate) stops: u64,
    pub(crate) starts: u64,
    pub(crate) completed: u64,
    pub(crate) broken: u64,
    pub(crate) none: u64,
    pub(crate) mixed: u64,
}

impl Counts {
    pub(crate) fn zero() -> Counts {
        Counts {
            stops: 0,
            starts: 0,
            completed: 0,
            broken: 0,
            none: 0,
            mixed: 0,
        }
    }

    /// Counts what came back in a table.
    fn add(&mut self, back: Back) {
        match back {
            Back::Completed { .. } => self.completed = self.completed.saturating_add(1),
            Back::Broken { .. } => self.broken = self.broken.saturating_add(1),
            Back::None | Back::Refused { .. } => self.none = self.none.saturating_add(1),
            Back::Mixed { .. } => self.mixed = self.mixed.saturating_add(1),
        }
    }
}

/// What came back by now: the ranges that ended, and for each table the one that goes on.
#[derive(Drop)]
pub(crate) struct Runs {
    pub(crate) ended: Vec<Run>,
    open: Vec<Run>,
}

impl Runs {
    pub(crate) fn make(alloc: Global) -> Runs {
        Runs {
            ended: Vec::new(alloc),
            open: Vec::new(alloc),
        }
    }

    /// Takes what came back in a table after so many bytes. If something else came back before, that range ends.
    pub(crate) fn take(&mut self, table: usize, after: u32, back: Back) -> Result<(), AllocError> {
        let run = Run {
            table,
            from: after,
            to: after,
            back,
        };
        match self.open.as_mut_slice().get_mut(table) {
            None => self.open.push(run)?,
            Some(open) if open.back == back => (),
            Some(open) => {
                self.ended.push(*open)?;
                *open = run;
            }
        }
        Ok(())
    }

    /// Lets each range reach to so many bytes, and counts what came back after that reset.
    fn reach(&mut self, after: u32, counts: &mut Counts) {
        for run in &mut self.open {
            run.to = after;
            counts.add(run.back);
        }
    }

    /// Ends each range.
    pub(crate) fn end(&mut self) -> Result<(), AllocError> {
        self.ended.extend_from_slice(&self.open)
    }
}

/// Whether a number of bytes of a write is tried.
fn is_tried(after: u32, length: u32, every: u32) -> bool
    ensures each { every ≡ 1 → IsTrue result }
    ensures whole { after ≡ length → IsTrue result }
{
    length <= SHORT_WRITE || after == length || after.checked_rem(every) == Some(0)
}

/// Puts a byte at a place. The answer is whether it changed the byte there.
fn put(image: &mut [u8], at: usize, byte: u8) -> bool
    ensures length { length image.new ≡ length image.old }
    ensures same { result ≡ false → image.new ≡ image.old }
{
    if image.get(at).is_none_or(|old| *old == byte) {
        return false;
    }
    image[at] = byte;
    true
}

/// The bank after some number of bytes of a write, and what came back by then.
#[derive(Drop)]
pub(crate) struct Sweep {
    image: Vec<u8>,
    /// How many requests had been made.
    pub(crate) played: usize,
    pub(crate) runs: Runs,
    /// Whether the bank has changed since it was asked what comes back.
    is_changed: bool,
}

impl Sweep {
    /// After no byte, before anything was asked.
    pub(crate) fn begin(plan: &Plan<'_>, write: Write) -> Result<Sweep, Fault> {
        let before = with_stop(plan.scenario, write.number, 0)?;
        Ok(Sweep {
            image: before.image,
            played: before.played,
            runs: Runs::make(plan.scenario.alloc),
            is_changed: true,
        })
    }

    /// A reset after so many bytes. The answer is whether the service was started again: if the bank is still the one that was asked about
    /// before, the same comes back.
    fn reset(&mut self, plan: &Plan<'_>, after: u32, counts: &mut Counts) -> Result<bool, Fault> {
        let starts = self.is_changed;
        if starts {
            come_back(
                plan,
                self.image.as_slice(),
                self.played,
                after,
                &mut self.runs,
            )?;
            counts.starts = counts.starts.saturating_add(1);
        }
        self.is_changed = false;
        counts.stops = counts.stops.saturating_add(1);
        self.runs.reach(after, counts);
        Ok(starts)
    }

    /// Writes the byte of a write at this place, from 0, and tries a reset after it. `bytes` are those of the bank once the whole write is
    /// there. The answer is whether the service was started again.
    fn try_byte(
        &mut self,
        plan: &Plan<'_>,
        span: Span,
        place: u32,
        bytes: &[u8],
        counts: &mut Counts,
    ) -> Result<bool, Fault> {
        let after = place.saturating_add(1);
        let at = span.at.saturating_add(place) as usize;
        let Some(byte) = bytes.get(at) else {
            return Err(Fault::Full);
        };
        if put(self.image.as_mut_slice(), at, *byte) {
            self.is_changed = true;
        }
        if is_tried(after, span.length, plan.every) {
            self.reset(plan, after, counts)
        } else {
            Ok(false)
        }
    }
}

/// Tries a reset after no byte of a write, and then writes each byte of it, and tries a reset after that.
fn try_bytes<R: Eprint>(
    rt: &R,
    plan: &Plan<'_>,
    write: Write,
    bytes: &[u8],
    sweep: &mut Sweep,
    counts: &mut Counts,
) -> Result<(), Fault> {
    sweep.reset(plan, 0, counts)?;
    for place in 0..write.span.length {
        if sweep.try_byte(plan, write.span, place, bytes, counts)? {
            tell_progress(rt, plan, write, place.saturating_add(1), counts.starts);
        }
    }
    Ok(sweep.runs.end()?)
}

/// Tries a reset after each number of bytes of a write, with a sweep that begins there. What is left after no byte and after all of them
/// comes from the session played up to there. Between these two the bank has a front of the write: it is made from both. If a byte of the
/// write changes nothing, what the reset leaves is the same as one byte before, and what comes back isn't asked again.
pub(crate) fn try_write<R: Eprint>(
    rt: &R,
    plan: &Plan<'_>,
    write: Write,
    sweep: &mut Sweep,
    counts: &mut Counts,
) -> Result<(), Fault> {
    let Write { number, span } = write;
    let behind = with_stop(plan.scenario, number, span.length)?;
    try_bytes(rt, plan, write, behind.image.as_slice(), sweep, counts)
}

/// Says now and then on standard error how far the work is. If that can't be written, it goes on.
fn tell_progress<R: Eprint>(rt: &R, plan: &Plan<'_>, write: Write, after: u32, starts: u64) {
    if starts % STARTS_TOLD == 0 {
        let number = write.number;
        let writes = plan.writes.len();
        let length = write.span.length;
        let _ = eprintln!(rt;
            "resets: at write {number} of {writes}, after {after} of {length} bytes"
        );
    }
}

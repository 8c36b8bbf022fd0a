// The table on its way to standard output.
use crate::death_text::{tell_death, tell_deaths_end, tell_deaths_front, tell_deaths_head};
use crate::dying::suffer;
use crate::plan::Plan;
use crate::play::Fault;
use crate::reset_text::{tell_end, tell_front, tell_write};
use crate::tries::{Counts, Sweep, Write, try_write};
use crate::trouble::Trouble;
use std::alloc::Global;
use tbl_adapters::StandardOutput;
use tbl_fakes::Span;
use tbl_outside::Sink;

/// The table on its way to standard output.
#[derive(Drop)]
pub(crate) struct Told {
    sink: StandardOutput,
    /// What is written next, as one row, and is cleared then.
    text: String,
    pub(crate) counts: Counts,
    /// How many images were lost.
    pub(crate) lost: usize,
}

impl Told {
    pub(crate) fn make(alloc: Global, sink: StandardOutput) -> Told {
        Told {
            sink,
            text: String::new(alloc),
            counts: Counts::zero(),
            lost: 0,
        }
    }

    /// Writes the text to standard output, and clears it.
    fn write_out(&mut self) -> Result<(), Fault> {
        let written = self.sink.write(self.text.as_bytes());
        self.text.clear();
        Ok(written?)
    }

    /// Writes what comes before the rows.
    fn write_front(&mut self, plan: &Plan<'_>) -> Result<(), Fault> {
        tell_front(&mut self.text, plan)?;
        self.write_out()
    }

    /// Writes the row of a write that was tried.
    fn write_row(&mut self, plan: &Plan<'_>, write: Write, sweep: &Sweep) -> Result<(), Fault> {
        tell_write(&mut self.text, plan, write, sweep)?;
        self.write_out()
    }

    /// Writes what comes after the rows.
    fn write_end(&mut self, plan: &Plan<'_>) -> Result<(), Fault> {
        tell_end(&mut self.text, plan, &self.counts)?;
        self.write_out()
    }
}

/// Tries a write, and writes its row.
fn tell_tried<R: Eprint>(
    rt: &R,
    plan: &Plan<'_>,
    write: Write,
    sweep: &mut Sweep,
    told: &mut Told,
) -> Result<(), Fault> {
    try_write(rt, plan, write, sweep, &mut told.counts)?;
    told.write_row(plan, write, sweep)
}

/// Tries the write at this place among those of the session, and writes its row.
fn tell_at_place<R: Eprint>(
    rt: &R,
    plan: &Plan<'_>,
    at: usize,
    span: Span,
    told: &mut Told,
) -> Result<(), Fault> {
    let Ok(number) = u32::try_from(at.saturating_add(1)) else {
        return Err(Fault::Full);
    };
    let write = Write { number, span };
    let mut sweep = Sweep::begin(plan, write)?;
    tell_tried(rt, plan, write, &mut sweep, told)
}

/// Plays the session while this goes wrong, writes its lines, and counts the images that were lost.
fn tell_suffered(plan: &Plan<'_>, trouble: Trouble, told: &mut Told) -> Result<(), Fault> {
    let death = suffer(plan, trouble)?;
    tell_death(&mut told.text, plan, trouble, &death.runs.ended)?;
    told.write_out()?;
    told.lost = told.lost.saturating_add(death.lost);
    Ok(())
}

/// Lets one of two banks die in each write of a session, after half of its bytes, and writes the lines.
fn tell_deaths_of(plan: &Plan<'_>, is_first: bool, told: &mut Told) -> Result<(), Fault> {
    for (at, span) in plan.writes.iter().enumerate() {
        let Ok(number) = u32::try_from(at.saturating_add(1)) else {
            return Err(Fault::Full);
        };
        let after = span.length / 2;
        let trouble = if is_first {
            Trouble::FirstDies { number, after }
        } else {
            Trouble::SecondDies { number, after }
        };
        tell_suffered(plan, trouble, told)?;
    }
    Ok(())
}

/// Lets one of two banks fail in each of the ways that are tried, and writes the table.
fn tell_deaths(plan: &Plan<'_>, told: &mut Told) -> Result<(), Fault> {
    tell_deaths_front(&mut told.text, plan)?;
    tell_deaths_of(plan, true, told)?;
    told.text.push_str("\n")?;
    tell_deaths_head(&mut told.text, "second bank dies in write")?;
    tell_deaths_of(plan, false, told)?;
    told.text.push_str("\n")?;
    tell_deaths_head(&mut told.text, "what fails")?;
    tell_suffered(plan, Trouble::FirstUnread, told)?;
    tell_suffered(plan, Trouble::NoFirst, told)?;
    tell_suffered(plan, Trouble::NoSecond, told)?;
    tell_deaths_end(&mut told.text, plan, told.lost)?;
    told.write_out()
}

/// Tries all writes of a session, and writes the table.
pub(crate) fn tell_all<R: Eprint>(rt: &R, plan: &Plan<'_>, told: &mut Told) -> Result<(), Fault> {
    if plan.is_mirrored {
        return tell_deaths(plan, told);
    }
    told.write_front(plan)?;
    for (at, span) in plan.writes.iter().enumerate() {
        tell_at_place(rt, plan, at, *span, told)?;
    }
    told.write_end(plan)
}

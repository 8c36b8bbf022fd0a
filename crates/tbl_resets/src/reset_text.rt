// The table of resets: for each write the ranges of numbers of bytes after which the same comes back.
use crate::plan::Plan;
use crate::tables::Table;
use crate::text::{blanks_to, tell_at, tell_back, tell_tables};
use crate::tries::{Counts, Run, SHORT_WRITE, Sweep, Write};
use crate::write_text::{tell_maker, tell_piece};
use std::alloc::AllocError;
use std::fmt::Write as _;

/// Where the columns after the first begin.
const BYTES_AT: usize = 7;

const REQUEST_AT: usize = 14;

const WRITES_AT: usize = 38;

/// The width of the column of what is written, without the name of a table, and that of the column of bytes after it.
const COPY_LEN: usize = 14;

const RANGE_LEN: usize = 14;

/// What is written is at least as wide as this.
const LEAST_NAME: usize = 16;

/// Where the column begins that says after which bytes the reset came: after the longest name of a table.
fn after_at(plan: &Plan<'_>) -> usize {
    let mut widest = LEAST_NAME;
    for table in plan.tables {
        widest = widest.max(table.name.len());
    }
    widest.saturating_add(WRITES_AT + COPY_LEN)
}

/// Writes what is known of a write: its number and bytes, its request, and what it has.
fn tell_head(
    text: &mut String,
    plan: &Plan<'_>,
    write: Write,
    played: usize,
) -> Result<(), AllocError> {
    let Write { number, span } = write;
    let length = span.length;
    let line = text.len();
    write!(text, "{number:<6} {length:<6} ")?;
    tell_maker(text, plan, played)?;
    blanks_to(text, line, WRITES_AT)?;
    tell_piece(text, plan, played, span)
}

/// Writes the ranges of the table at a place, the first after what the line has already. The answer is where the next line begins.
fn tell_runs(
    text: &mut String,
    line: usize,
    after: usize,
    at: usize,
    table: &Table,
    runs: &[Run],
) -> Result<usize, AllocError> {
    let mut line = line;
    for run in runs {
        if run.table == at {
            tell_run(text, line, after, table, *run)?;
            line = text.len();
        }
    }
    Ok(line)
}

/// Writes the lines of a write: one for each range of numbers of bytes and each table.
pub(crate) fn tell_write(
    text: &mut String,
    plan: &Plan<'_>,
    write: Write,
    sweep: &Sweep,
) -> Result<(), AllocError> {
    let after = after_at(plan);
    let mut line = text.len();
    tell_head(text, plan, write, sweep.played)?;
    for (at, table) in plan.tables.iter().enumerate() {
        line = tell_runs(text, line, after, at, table, &sweep.runs.ended)?;
    }
    if line == text.len() {
        Ok(())
    } else {
        text.push_str("\n")
    }
}

/// Writes the first and the last number of bytes of a range.
fn tell_range(text: &mut String, run: Run) -> Result<(), AllocError> {
    let (from, to) = (run.from, run.to);
    if from == to {
        write!(text, "{from}")
    } else {
        write!(text, "{from}-{to}")
    }
}

/// Writes a range, the table and what came back, after what the line has already.
fn tell_run(
    text: &mut String,
    line: usize,
    after: usize,
    table: &Table,
    run: Run,
) -> Result<(), AllocError> {
    let name = table.name.as_str();
    blanks_to(text, line, after)?;
    tell_range(text, run)?;
    blanks_to(text, line, after.saturating_add(RANGE_LEN))?;
    write!(text, "{name}: ")?;
    tell_back(text, run.back)?;
    text.push_str("\n")
}

/// Writes which resets inside long writes were tried, if some were left out.
fn tell_every(text: &mut String, every: u32) -> Result<(), AllocError> {
    if every <= 1 {
        return Ok(());
    }
    write!(
        text,
        ";\ninside writes of more than {SHORT_WRITE} bytes only after numbers of bytes that are multiples of {every} (--every {every})"
    )
}

/// Writes how many resets were tried, and which, after the lines of the last write.
fn tell_count(text: &mut String, plan: &Plan<'_>, counts: &Counts) -> Result<(), AllocError> {
    let writes = plan.writes.len();
    let (stops, starts) = (counts.stops, counts.starts);
    write!(
        text,
        "\n{writes} writes and {stops} resets were tried: after each number of bytes of each write, 0 and all of them too"
    )?;
    tell_every(text, plan.every)?;
    writeln!(
        text,
        ".\nThe service was started anew {starts} times: not once more where a byte of a write changes nothing in the bank."
    )
}

/// Writes the heads of the columns.
fn tell_columns(text: &mut String, plan: &Plan<'_>) -> Result<(), AllocError> {
    let after = after_at(plan);
    let line = text.len();
    text.push_str("write")?;
    tell_at(text, line, BYTES_AT, "bytes")?;
    tell_at(text, line, REQUEST_AT, "in request")?;
    tell_at(text, line, WRITES_AT, "what is written")?;
    tell_at(text, line, after, "reset after")?;
    tell_at(
        text,
        line,
        after.saturating_add(RANGE_LEN),
        "what comes back\n",
    )
}

/// Writes the last line.
fn tell_sums(text: &mut String, counts: &Counts) -> Result<(), AllocError> {
    let (completed, broken, none, mixed) = (
        counts.completed,
        counts.broken,
        counts.none,
        counts.mixed,
    );
    writeln!(
        text,
        "Came back: the last image that was copied: {completed}; one whose copy broke off: {broken}; none: {none}; a mix: {mixed}."
    )
}

/// Writes what comes before the lines of the first write.
pub(crate) fn tell_front(text: &mut String, plan: &Plan<'_>) -> Result<(), AllocError> {
    tell_tables(text, plan)?;
    tell_columns(text, plan)
}

/// Writes what comes after the lines of the last write.
pub(crate) fn tell_end(
    text: &mut String,
    plan: &Plan<'_>,
    counts: &Counts,
) -> Result<(), AllocError> {
    tell_count(text, plan, counts)?;
    tell_sums(text, counts)
}

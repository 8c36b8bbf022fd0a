// The table of what goes wrong with two banks as one: what comes back after each trouble.
use crate::plan::Plan;
use crate::text::{blanks_to, tell_back, tell_tables};
use crate::tries::Run;
use crate::trouble::Trouble;
use std::alloc::AllocError;
use std::fmt::Write as _;

/// Where the second column begins in the lines of deaths.
const DEATH_AT: usize = 27;

/// Writes what comes before the lines of what goes wrong with two banks.
pub(crate) fn tell_deaths_front(text: &mut String, plan: &Plan<'_>) -> Result<(), AllocError> {
    tell_tables(text, plan)?;
    tell_deaths_head(text, "first bank dies in write")
}

/// Writes the head of the lines of one kind.
pub(crate) fn tell_deaths_head(text: &mut String, kind: &str) -> Result<(), AllocError> {
    let line = text.len();
    text.push_str(kind)?;
    blanks_to(text, line, DEATH_AT)?;
    text.push_str("what comes back after the next start\n")
}

/// Writes what went wrong.
fn tell_trouble(text: &mut String, trouble: Trouble) -> Result<(), AllocError> {
    match trouble {
        Trouble::FirstDies { number, .. } | Trouble::SecondDies { number, .. } => {
            write!(text, "{number}")
        }
        Trouble::FirstUnread => text.push_str("first bank's reads"),
        Trouble::NoFirst => text.push_str("first bank at the start"),
        Trouble::NoSecond => text.push_str("second bank at the start"),
    }
}

/// Writes the lines of what went wrong: one for each table.
pub(crate) fn tell_death(
    text: &mut String,
    plan: &Plan<'_>,
    trouble: Trouble,
    runs: &[Run],
) -> Result<(), AllocError> {
    let mut line = text.len();
    tell_trouble(text, trouble)?;
    for run in runs {
        if let Some(table) = plan.tables.get(run.table) {
            let name = table.name.as_str();
            blanks_to(text, line, DEATH_AT)?;
            write!(text, "{name}: ")?;
            tell_back(text, run.back)?;
            text.push_str("\n")?;
            line = text.len();
        }
    }
    if line == text.len() {
        Ok(())
    } else {
        text.push_str("\n")
    }
}

/// Writes what comes after the lines of what went wrong.
pub(crate) fn tell_deaths_end(
    text: &mut String,
    plan: &Plan<'_>,
    lost: usize,
) -> Result<(), AllocError> {
    let writes = plan.writes.len();
    write!(
        text,
        "\nEach of two banks died in each of {writes} writes and at the start, and the other one went on alone. No read of the first was answered. "
    )?;
    if lost == 0 {
        text.push_str("No image was lost.\n")
    } else {
        writeln!(text, "{lost} images were lost.")
    }
}

// What both tables have: columns, which image came back, and the critical tables of the session.
use crate::plan::Plan;
use crate::tables::{Back, Change, Event, Table};
use std::alloc::AllocError;
use std::fmt::Write as _;

/// Appends blanks up to a column, one at least, of the line that begins at this place of the text.
pub(crate) fn blanks_to(text: &mut String, line: usize, column: usize) -> Result<(), AllocError> {
    text.push_str(" ")?;
    for _ in text.len().saturating_sub(line)..column {
        text.push_str(" ")?;
    }
    Ok(())
}

/// Appends a text in a column of the line that begins at this place.
pub(crate) fn tell_at(
    text: &mut String,
    line: usize,
    column: usize,
    what: &str,
) -> Result<(), AllocError> {
    blanks_to(text, line, column)?;
    text.push_str(what)
}

/// Writes which image came back.
fn tell_recovered(text: &mut String, number: u32, crc: u16, how: &str) -> Result<(), AllocError> {
    write!(text, "recovered: image {number} (crc 0x{crc:04X}), {how}")
}

/// Writes what came back.
pub(crate) fn tell_back(text: &mut String, back: Back) -> Result<(), AllocError> {
    match back {
        Back::None => text.push_str("none"),
        Back::Refused { status } => write!(text, "none (Register was answered with {status})"),
        Back::Completed { number, crc } => {
            tell_recovered(text, number, crc, "the last that was copied")
        }
        Back::Broken { number, crc } => tell_recovered(text, number, crc, "whose copy broke off"),
        Back::Mixed { crc } => write!(
            text,
            "A MIX: other bytes than of any image (crc 0x{crc:04X})"
        ),
    }
}

/// Writes a registration or an image of a table.
fn tell_event(text: &mut String, event: &Event) -> Result<(), AllocError> {
    let place = event.place;
    match &event.change {
        Change::Registered(registration) => {
            let size = registration.size;
            let app = registration.actor.number();
            writeln!(
                text,
                "  request {place}: app {app} registers it, {size} bytes"
            )
        }
        Change::Copied(image) => {
            let number = image.number;
            let crc = image.crc;
            writeln!(
                text,
                "  request {place}: image {number} (crc 0x{crc:04X}) is copied"
            )
        }
        Change::Emptied => Ok(()),
    }
}

/// Writes a table's registrations and images.
fn tell_table(text: &mut String, table: &Table) -> Result<(), AllocError> {
    let name = table.name.as_str();
    writeln!(text, "{name}")?;
    if let Some(image) = &table.stored {
        let crc = image.crc;
        writeln!(text, "  the store file has image 0 (crc 0x{crc:04X})")?;
    }
    for event in &table.events {
        tell_event(text, event)?;
    }
    Ok(())
}

/// Writes the critical tables.
pub(crate) fn tell_tables(text: &mut String, plan: &Plan<'_>) -> Result<(), AllocError> {
    text.push_str("The number of a request is its place in the session, from 0.\n\n")?;
    if plan.tables.is_empty() {
        text.push_str("The session registers no critical table.\n")?;
    }
    for table in plan.tables {
        tell_table(text, table)?;
    }
    text.push_str("\n")
}

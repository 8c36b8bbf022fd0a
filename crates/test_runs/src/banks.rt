//! What stands in a bank after a session.

use std::fmt::{self, Write};
use tbl_fakes::Span;
use test_tables::{CaseFault, Row, bank_bytes, same_text};

/// Writes where each write begins, and its length.
fn tell_writes(told: &mut String, writes: &[Span]) -> fmt::Result {
    for write in writes {
        let at = write.at;
        let length = write.length;
        write!(told, "{at}/{length} ")?;
    }
    Ok(())
}

/// Whether the writes are those of a cell, each as `8208/8`: where it begins, and its length.
pub(crate) fn same_writes(row: &Row, at: usize, writes: &[Span]) -> Result<(), CaseFault> {
    let mut told = String::new(row.alloc());
    if tell_writes(&mut told, writes).is_err() {
        return Err(CaseFault::Memory);
    }
    same_text(told, row.text(at)?)
}

/// Whether a bank holds what a cell has, and zeros elsewhere.
fn holds(row: &Row, at: usize, bank: &[u8]) -> Result<bool, CaseFault> {
    let wanted = bank_bytes(row, at)?;
    Ok(bank == wanted.as_slice())
}

/// Tells it where a bank doesn't hold what a cell has, and zeros elsewhere.
pub(crate) fn same_bank(row: &Row, at: usize, bank: &[u8]) -> Result<(), CaseFault> {
    if holds(row, at, bank)? {
        return Ok(());
    }
    let text = String::from_str(row.alloc(), "another bank behind it")?;
    Err(CaseFault::Differs(text))
}

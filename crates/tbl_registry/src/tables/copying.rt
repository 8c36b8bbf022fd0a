//! The registered tables once more.

ghost use Rattle.std.specs.Prelude.{◌≡◌, IfOk};

use super::Tables;
use crate::row::Row;
use std::alloc::Global;
use tbl_kinds::Memory;

/// The same table for a further registry, if the row has one.
fn copy_row(row: &Option<Row>) -> Result<Option<Row>, Memory>
    ensures { IfOk result (λ copy. copy ≡ row.now) }
{
    match row {
        Some(table) => Ok(Some(table.duplicate()?)),
        None => Ok(None),
    }
}

/// The same rows in memory of their own.
fn copy_rows(alloc: Global, rows: &[Option<Row>]) -> Result<Vec<Option<Row>>, Memory>
    ensures { IfOk result (λ copies. copies.items ≡ rows.now) }
{
    let mut copies = Vec::with_capacity(alloc, rows.len())?;
    for row in rows {
        copies.push(copy_row(row)?)?;
    }
    Ok(copies)
}

impl Tables {
    /// The same tables and handles in memory of their own. The bytes of images are in the same memory: an image has a
    /// further owner, and nobody changes it in place as long as both have it. An Err means out of memory, or that an image has as many
    /// owners as can be counted.
    pub fn duplicate(&self, alloc: Global) -> Result<Tables, Memory>
        ensures { IfOk result (λ copy. copy ≡ self.now) }
    {
        Ok(Tables {
            rows: copy_rows(alloc, &self.rows)?,
            handles: self.handles.duplicate(alloc)?,
            counts: self.counts,
            hints: self.hints,
        })
    }
}

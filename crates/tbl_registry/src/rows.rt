//! The 128 rows, each with a table or none.

ghost use Rattle.std.specs.Prelude.{◌≡◌, ◌<◌, ◌≤◌, ◌↔◌, ◌+◌, ◌∷◌, None, Some, IsSome, IsNone, IfOk, IfSome, if◌then◌else◌, length, position, replicate, take, count_by, is_some, is_none, slice_index_or, max, fold};
ghost use Rattle.std.specs.Option.{option_copied};
ghost use Rattle.tbl_kinds.specs.Free.{least_free};
ghost use Rattle.tbl_model.specs.Tables.{is_critical_in, uses_buffer, rows_from};
ghost use Rattle.tbl_model.specs.TableSteps.{has_name};
ghost use Rattle.tbl_registry.specs.Images.{images_in};
ghost use Rattle.tbl_registry.specs.Seen.{padded};

use crate::row::Row;
use std::alloc::{AllocError, Global};

/// How many tables there can be (`CFE_PLATFORM_TBL_MAX_NUM_TABLES`).
const ROWS: usize = 128;

/// The rows of an empty registry.
pub(crate) fn free_rows(alloc: Global) -> Result<Vec<Option<Row>>, AllocError>
    ensures { IfOk result (λ rows. rows.items ≡ replicate 128 None) }
{
    let mut rows = Vec::with_capacity(alloc, ROWS)?;
    for _ in 0..ROWS {
        rows.push(None)?;
    }
    Ok(rows)
}

/// Takes every table away.
pub(crate) fn free_all(rows: &mut [Option<Row>])
    requires { length rows.old ≡ 128 }
    ensures { rows.new ≡ replicate 128 None }
{
    for row in rows.iter_mut() {
        *row = None;
    }
}

/// Whether the row has a table of this full name.
fn has_name(row: &Option<Row>, name: &[u8]) -> bool
    ensures { result ≡ has_name name.now row.now }
{
    match row {
        Some(table) => table.has_name(name),
        None => false,
    }
}

/// Whether the row of this number has the table of this full name.
pub(crate) fn is_named(rows: &[Option<Row>], row: u8, name: &[u8]) -> bool
    ensures { result ≡ has_name name.now (slice_index_or rows.now row None) }
{
    match table_in(rows, row) {
        Some(table) => table.has_name(name),
        None => false,
    }
}

/// The row with the table of this full name. It is a function of its own, as a hint finds most names before it.
#[inline(never)]
pub(crate) fn row_of_name(rows: &[Option<Row>], name: &[u8]) -> Option<usize>
    ensures row { result ≡ position (has_name name.now) rows.now }
    ensures within { IfSome result (λ n. n < length rows.now) }
{
    rows.iter().position(|row| has_name(row, name))
}

/// The least row without a table, as an index.
fn first_free(rows: &[Option<Row>]) -> Option<usize>
    ensures row { result ≡ position is_none rows.now }
    ensures within { IfSome result (λ n. n < length rows.now) }
{
    rows.iter().position(|row| row.is_none())
}

/// The least row without a table.
pub(crate) fn free_row(rows: &[Option<Row>]) -> Option<u8>
    requires { length rows.now ≤ 256 }
    ensures row { result ≡ least_free rows.now }
    ensures full { IsNone result ↔ (count_by is_some rows.now ≡ length rows.now) }
    ensures within { IfSome result (λ row. row < length rows.now) }
{
    match first_free(rows) {
        Some(row) => Some(row as u8),
        None => None,
    }
}

/// The table of a row.
pub(crate) fn table_in(rows: &[Option<Row>], row: u8) -> Option<&Row>
    ensures { option_copied result ≡ slice_index_or rows.now row None }
{
    match rows.get(row as usize) {
        Some(Some(table)) => Some(table),
        _ => None,
    }
}

/// One more, if this one counts.
fn counted(count: u16, counts: bool) -> u16
    requires { count < 256 }
    ensures { result ≡ (if counts then count + 1 else count) }
{
    if counts { count + 1 } else { count }
}

/// Whether the row has a critical table.
fn has_critical(row: &Option<Row>) -> bool
    ensures { result ≡ is_critical_in row.now }
{
    match row {
        Some(table) => table.is_critical(),
        None => false,
    }
}

/// How many images a table has had, 0 if there is none.
fn images_in(row: &Option<Row>) -> u32
    ensures { result ≡ images_in row.now }
{
    match row {
        Some(table) => table.count(),
        None => 0,
    }
}

/// The most images that a table has had.
pub(crate) fn most_images_in(rows: &[Option<Row>]) -> u32
    ensures { result ≡ fold (λ most row. max most (images_in row)) 0 rows.now }
{
    let mut most = 0;
    for row in rows {
        most = most.max(images_in(row));
    }
    most
}

/// How many tables are critical.
pub(crate) fn critical_in(rows: &[Option<Row>]) -> u16
    requires { length rows.now ≤ 256 }
    ensures tables { result ≡ count_by is_critical_in rows.now }
    ensures within { result ≤ length rows.now }
{
    let mut count = 0;
    for row in rows {
        count = counted(count, has_critical(row));
    }
    count
}

/// Whether the row has a table that uses a shared working buffer.
fn uses_buffer(row: &Option<Row>) -> bool
    ensures { result ≡ uses_buffer row.now }
{
    match row {
        Some(table) => table.uses_buffer(),
        None => false,
    }
}

/// Puts the row in front of those that were found, if it uses a buffer.
fn put_front(found: &mut [Option<u8>; 4], row: u8, uses: bool)
    ensures { found.new ≡ (if uses then Some row ∷ take 3 found.old else found.old) }
{
    if uses {
        *found = [Some(row), found[0], found[1], found[2]];
    }
}

/// The rows that use the shared working buffers, ascending, and then None.
pub(crate) fn rows_with_buffer(rows: &[Option<Row>]) -> [Option<u8>; 4]
    requires rows { length rows.now ≤ 256 }
    requires few { count_by uses_buffer rows.now ≤ 4 }
    ensures { result ≡ padded (rows_from 0 rows.now) }
{
    let mut found = [None; 4];
    // From the last row down: each is put in front, so they end up ascending.
    let mut row = rows.len();
    while row > 0 {
        row -= 1;
        put_front(&mut found, row as u8, uses_buffer(&rows[row]));
    }
    found
}

//! The pins of the table in each row, kept together with the handles: a search for a pin begins at the first place where one can be.

ghost use Rattle.std.specs.Prelude.{◌≡◌, ◌<◌, ◌≤◌, ℕ, IfOk, true, if◌then◌else◌, length, replicate, slice_set};
ghost use Rattle.access_desc.specs.Steps.{has, pins};
ghost use Rattle.access_desc.specs.Counts.{AreKept, is_at, no_pins, one_more, one_less, row_at};

use crate::handle_view::HandleView;
use crate::row_pins::RowPins;
use std::alloc::{AllocError, Global};

/// How many rows there are: as many as a row's number can be.
const ROWS: usize = 256;

/// No pin in any row.
pub(crate) fn rows_without_pins(alloc: Global) -> Result<Vec<RowPins>, AllocError>
    ensures { IfOk result (λ rows. rows.items ≡ replicate 256 no_pins) }
{
    let rows = vec![in alloc; RowPins::NONE; ROWS]?;
    Ok(rows)
}

/// The row of the table whose image is pinned from this place.
fn pinned_row(place: Option<HandleView>) -> Option<u8>
    ensures { (row : ℕ) → has (pins row) place ≡ is_at row result }
{
    match place {
        Some(handle) if handle.pinned => handle.row,
        _ => None,
    }
}

/// What is at this place counts, if it is a pin.
fn count_in(rows: &mut [RowPins], at: u8, place: Option<HandleView>)
    requires all_rows { length rows.old ≡ 256 }
    requires few { (row : ℕ) → row < 256 → (row_at rows.old row).count ≤ 256 }
    ensures { (row : ℕ) → row < 256 → row_at rows.new row ≡ (if has (pins row) place then one_more at (row_at rows.old row) else row_at rows.old row) }
{
    if let Some(row) = pinned_row(place) {
        rows[row as usize].add(at);
    }
}

/// What was at a place doesn't count any more, if it was a pin.
fn count_out(rows: &mut [RowPins], place: Option<HandleView>)
    requires all_rows { length rows.old ≡ 256 }
    requires counted { (row : ℕ) → row < 256 → has (pins row) place ≡ true → 0 < (row_at rows.old row).count }
    ensures { (row : ℕ) → row < 256 → row_at rows.new row ≡ (if has (pins row) place then one_less (row_at rows.old row) else row_at rows.old row) }
{
    if let Some(row) = pinned_row(place) {
        rows[row as usize].remove();
    }
}

/// Puts a handle, or nothing, at a place: its pin counts from now on, and that of what was there doesn't any more.
pub(crate) fn put(
    places: &mut [Option<HandleView>],
    rows: &mut [RowPins],
    at: usize,
    place: Option<HandleView>,
)
    requires within { at < length places.old }
    requires kept { AreKept places.old rows.old }
    ensures places { places.new ≡ slice_set places.old at place }
    ensures kept { AreKept places.new rows.new }
{
    count_out(rows, places[at]);
    count_in(rows, at as u8, place);
    places[at] = place;
}

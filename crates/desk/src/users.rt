//! The rows that use the shared working buffers, which a load is answered that gets none.

ghost use Rattle.std.specs.Prelude.{◌≡◌, ◌≤◌, ◌==◌, [], ◌∷◌, length, if◌then◌else◌};
ghost use Rattle.tbl_model.specs.Tables.{in_use};
ghost use Rattle.desk.specs.Rows.{PutsRows};

use tbl_kinds::{Answer, Bytes, Status};
use tbl_registry::Tables;

/// How many shared working buffers there are, and so how many rows use them at most.
pub const BUFFERS: usize = 4;

/// Appends the row, if there is one.
fn put_row(bytes: &mut Bytes, row: Option<u8>)
    requires { 1 ≤ bytes.old.spare }
    ensures { PutsRows (row ∷ []) bytes.old bytes.new }
{
    if let Some(row) = row {
        bytes.append(&[row]);
    }
}

/// Appends the rows that are at some of the places.
fn put_rows(bytes: &mut Bytes, places: &[Option<u8>])
    requires { length places.now ≤ bytes.old.spare }
    ensures { PutsRows places.now bytes.old bytes.new }
{
    for place in places {
        put_row(bytes, *place);
    }
}

/// If the answer to a load was that no shared buffer is free, the reply gives the rows that use them.
#[tactic(auto, using(crate::proofs::Buffers::rows_in_padded))]
pub fn put_users(tables: &Tables, answer: Answer, bytes: &mut Bytes)
    requires empty { bytes.old.list ≡ [] }
    requires room { 4 ≤ bytes.old.spare }
    ensures bytes { bytes.new.list ≡ (if answer.status.0 == Status.ERR_NO_BUFFER_AVAIL.0 then in_use tables.now else []) }
    ensures len { length bytes.new.list ≤ 4 }
{
    if answer.status == Status::ERR_NO_BUFFER_AVAIL {
        put_rows(bytes, &tables.in_use());
    }
}

//! Why a load isn't taken: the refusals that loads of the owner and of the ground share.

ghost use Rattle.std.specs.Prelude.{◌≡◌, ◌+◌};
ghost use Rattle.std.specs.Option.{ForSome};
ghost use Rattle.tbl_model.specs.State.{Table};
ghost use Rattle.tbl_model.specs.Tables.{table_at, is_double};
ghost use Rattle.tbl_model.specs.TableSteps.{locker};
ghost use Rattle.tbl_model.specs.Refusals.{refusal, lock_refusal, buffer_refusal, part_refusal};

use tbl_kinds::{Answer, Status};
use tbl_registry::Tables;

/// A refusal that names nothing.
pub(crate) fn refusal(status: Status) -> Option<Answer>
    ensures { result ≡ refusal status }
{
    Some(Answer { status, detail: 0 })
}

/// The table of the row is locked, by this handle.
pub(crate) fn lock_refusal(tables: &Tables, row: u8) -> Option<Answer>
    ensures { ForSome (table_at tables.now row) (λ t. result ≡ lock_refusal (locker tables.now row t)) }
{
    match tables.locker(row) {
        Some(handle) => Some(Answer {
            status: Status::INFO_TABLE_LOCKED,
            detail: u32::from(handle),
        }),
        None => None,
    }
}

/// No shared working buffer is free for a table with a single buffer.
pub(crate) fn buffer_refusal(tables: &Tables, double: bool) -> Option<Answer>
    ensures { (t : Table) → is_double t ≡ double → result ≡ buffer_refusal tables.now t }
{
    if !double && tables.all_buffers_used() {
        return refusal(Status::ERR_NO_BUFFER_AVAIL);
    }
    None
}

/// Why so many bytes from this offset on aren't part of an image of a table of this size that had so many images.
pub(crate) fn part_refusal(size: u32, count: u32, offset: u32, len: u32) -> Option<Answer>
    ensures { (t : Table) → t.size ≡ size → t.count ≡ count → result ≡ part_refusal t offset len }
{
    if len == 0 {
        return refusal(Status::ERR_ZERO_LOAD);
    }
    if u64::from(offset) + u64::from(len) > u64::from(size) {
        return refusal(Status::ERR_PAST_END);
    }
    if count == 0 && (offset != 0 || len != size) {
        return refusal(Status::ERR_PARTIAL_LOAD);
    }
    None
}

//! What the owners of dump-only tables do: they fill the dumps that the ground asked for, and write over their images.

ghost use Rattle.std.specs.Prelude.{◌≡◌, ◌+◌, not, nat_lt, None, IsSome, IfNone, IfOk, OnErr};
ghost use Rattle.std.specs.Option.{ForSome};
ghost use Rattle.tbl_model.specs.State.{State};
ghost use Rattle.tbl_model.specs.Tables.{table_at};
ghost use Rattle.tbl_model.specs.Effects.{answered_with};
ghost use Rattle.tbl_model.specs.Dumps.{edit_refusal, edited_effect, filled_effect};
ghost use Rattle.desk.specs.Limits.{AreCounted};

use bitflags::Flags;
use std::alloc::Global;
use tbl_kinds::{Answer, Memory, Options, Status};
use tbl_registry::{Dump, Tables};

/// The owner of the table in the row fills the dump that the ground asked for with the table's image (`CFE_TBL_DumpToBuffer`; cFE User's
/// Guide, Table Services, "Dumping tables"). It takes no memory. `INFO_NO_DUMP_PENDING`: none is requested.
pub fn dump_to_buffer(tables: &mut Tables, row: u8) -> Answer
    requires { IsSome (table_at tables.old row) }
    ensures { (s : State) → s.tables ≡ tables.old → ForSome (table_at tables.old row) (λ t. filled_effect s row t ≡ answered_with s result tables.new) }
{
    let Some(table) = tables.row(row) else {
        unreachable!();
    };
    if table.dump != Dump::Asked {
        return Answer::plain(Status::INFO_NO_DUMP_PENDING);
    }
    tables.fill_dump(row);
    Answer::plain(Status::SUCCESS)
}

/// Whether an image of this size has so many bytes from this offset on.
fn fits(size: u32, offset: u32, len: usize) -> bool
    ensures { result ≡ not (nat_lt size (offset + len)) }
{
    match (offset as usize).checked_add(len) {
        Some(end) => end <= size as usize,
        None => false,
    }
}

/// Why so many bytes from this offset on aren't written over the image of the table of a row, if they aren't.
fn edit_refusal(tables: &Tables, row: u8, offset: u32, len: usize) -> Option<Answer>
    requires { IsSome (table_at tables.now row) }
    ensures refusal { ForSome (table_at tables.now row) (λ t. result ≡ edit_refusal tables.now row t offset len) }
    ensures closed { IfNone result (ForSome (table_at tables.now row) (λ t. t.load ≡ None)) }
{
    let Some(table) = tables.row(row) else {
        unreachable!();
    };
    if !table.flags.contains(Options::DUMP_ONLY) {
        return Some(Answer::plain(Status::ERR_NOT_DUMP_ONLY));
    }
    if len == 0 || !fits(table.size, offset, len) {
        return Some(Answer::plain(Status::ERR_OUT_OF_RANGE));
    }
    match tables.locker(row) {
        Some(handle) => Some(Answer {
            status: Status::INFO_TABLE_LOCKED,
            detail: u32::from(handle),
        }),
        None => None,
    }
}

/// The owner of the dump-only table in the row writes bytes over its image, from an offset on, in a new image that becomes the last one: tables
/// at an address of their owner's own, which it writes as it likes, are not offered here. `ERR_NOT_DUMP_ONLY`: the table is loaded, and not
/// edited. `ERR_OUT_OF_RANGE`: there are no bytes, or they go past the table's end. `INFO_TABLE_LOCKED`: the detail is the handle that pins the
/// image. Out of memory: nothing was changed.
pub fn edit(
    alloc: Global,
    tables: &mut Tables,
    row: u8,
    offset: u32,
    bytes: &[u8],
) -> Result<Answer, Memory>
    requires table { IsSome (table_at tables.old row) }
    requires counted { AreCounted tables.old }
    ensures effect { IfOk result (λ answer. (s : State) → s.tables ≡ tables.old
        → ForSome (table_at tables.old row) (λ t. edited_effect s row t offset bytes.now ≡ answered_with s answer tables.new)) }
    ensures err { OnErr result (tables.new ≡ tables.old) }
{
    if let Some(answer) = edit_refusal(tables, row, offset, bytes.len()) {
        return Ok(answer);
    }
    // A new image, and not a write in place: a filled dump may keep the last one.
    let image = tables.patched(alloc, row, offset, bytes)?;
    tables.put(row, image);
    Ok(Answer::plain(Status::SUCCESS))
}

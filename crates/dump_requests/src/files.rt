//! The files that dumps are written as.

ghost use Rattle.std.specs.Prelude.{◌≡◌, ◌≤◌, ◌+◌, ◌*◌, ◌++◌, ℕ, List, length, IsSome, IfSome, is_some, if◌then◌else◌};
ghost use Rattle.std.specs.List.{flat_map};
ghost use Rattle.tbl_kinds.specs.Limits.{table_limit};
ghost use Rattle.tbl_kinds.specs.Names.{name_field};
ghost use Rattle.tbl_kinds.specs.Headers.{header_len, description_len};
ghost use Rattle.tbl_kinds.specs.TableFiles.{image_place};
ghost use Rattle.tbl_model.specs.State.{State};
ghost use Rattle.tbl_model.specs.Tables.{table_at, table_count};
ghost use Rattle.tbl_model.specs.Dumps.{written_header, dump_file, record_of, registry_file, is_filled};
ghost use Rattle.cfe_headers.specs.FileHeaders.{header_of};
ghost use Rattle.dump_requests.specs.Images.{AppendsFile, AppendsFilled, filled_file_len, record_len};

use cfe_headers::{FileHeader, HEADER_LENGTH, write_file_header};
use request_effects::Clock;
use table_files::{IMAGE_PLACE, TABLE_SUBTYPE, write_image_file};
use tbl_kinds::{Bytes, Name40, Name64};
use tbl_registry::Tables;

/// The subtype of a registry file (cFE's `CFE_FS_SubType_TBL_REG`).
const REGISTRY_SUBTYPE: u32 = 9;

/// The spacecraft that files are from.
const SPACECRAFT: u32 = 66;

/// The processor that files are from.
const PROCESSOR: u32 = 1;

/// How many bytes the record of a table has.
const RECORD_LENGTH: usize = 144;

/// `Table image`, as the description of a file.
const IMAGE_TEXT: [u8; 32] = *b"Table image\0\0\0\0\0\0\0\0\0\0\0\0\0\0\0\0\0\0\0\0\0";

/// `Table registry`, as the description of a file.
const REGISTRY_TEXT: [u8; 32] = *b"Table registry\0\0\0\0\0\0\0\0\0\0\0\0\0\0\0\0\0\0";

/// The header of a file of this kind, with this description, that is written at this time.
#[inline]
fn header(subtype: u32, description: [u8; 32], clock: Clock) -> FileHeader
    ensures header { (text : List ℕ) (s : State) → description ≡ name_field description_len text → s.seconds ≡ clock.seconds → s.sub ≡ clock.sub
        → header_of result ≡ written_header subtype text s }
    ensures subtype { result.subtype ≡ subtype }
{
    FileHeader {
        subtype,
        length: HEADER_LENGTH as u32,
        spacecraft: SPACECRAFT,
        processor: PROCESSOR,
        application: 0,
        seconds: clock.seconds,
        sub: u32::from(clock.sub) * 0x1_0000,
        description,
    }
}

// ---- images

/// Appends the file of a whole image of the table of this name (cFE's `CFE_FS_Header_t`, `CFE_TBL_File_Hdr_t`): the file header with the text
/// `Table image` and this time, the table file header with offset 0 and the table's full name, and the image.
#[inline(never)]
#[tactic(auto, unfolding(tbl_model::specs::Dumps::dump_file))]
pub(crate) fn write_image(out: &mut Bytes, name: &Name40, image: &[u8], clock: Clock)
    requires room { image_place + length image.now ≤ out.old.spare }
    requires within { length image.now ≤ table_limit }
    ensures { AppendsFile out.old out.new clock (λ s. dump_file s name.now image.now) (image_place + length image.now) }
{
    let header = header(TABLE_SUBTYPE, IMAGE_TEXT, clock);
    write_image_file(out, &header, 0, name, image);
}

/// How many bytes the file of the filled dump of the table of a row has: 116 and those of the image. None exactly if there is no filled
/// dump.
pub(crate) fn filled_len(tables: &Tables, row: u8) -> Option<usize>
    ensures len { result ≡ filled_file_len (table_at tables.now row) }
    ensures filled { is_some result ≡ is_filled (table_at tables.now row) }
    ensures within { IfSome result (λ len. len ≤ image_place + table_limit) }
{
    let image = tables.filled(row)?;
    Some(IMAGE_PLACE + image.len())
}

/// Appends the file of the filled dump of the table of a row, and gives the file's name. None exactly if there is no filled dump.
/// `filled_len` says how much room the file needs.
pub(crate) fn write_filled(
    tables: &Tables,
    row: u8,
    out: &mut Bytes,
    clock: Clock,
) -> Option<Name64>
    requires { IfSome (filled_file_len (table_at tables.now row)) (λ len. len ≤ out.old.spare) }
    ensures { AppendsFilled out.old out.new clock (table_at tables.now row) result }
{
    let image = tables.filled(row)?;
    let (Some(name), Some(file)) = (tables.name(row), tables.dump_name(row)) else {
        unreachable!();
    };
    write_image(out, name, image, clock);
    Some(file.copy())
}

// ---- the registry

/// How many bytes the registry's file has: 64, and 144 for each registered table.
pub(crate) fn registry_file_len(tables: &Tables) -> usize
    ensures len { result ≡ header_len + record_len * table_count tables.now }
    ensures within { result ≤ header_len + record_len * 128 }
{
    HEADER_LENGTH + RECORD_LENGTH * usize::from(tables.count())
}

/// Appends the record of the table of a row, if there is one.
fn write_record(tables: &Tables, row: u8, out: &mut Bytes)
    requires { IsSome (table_at tables.now row) → record_len ≤ out.old.spare }
    ensures bytes { out.new.list ≡ out.old.list ++ record_of (table_at tables.now row) }
    ensures room { out.old.spare ≤ out.new.spare + record_len * (if is_some (table_at tables.now row) then 1 else 0) }
    ensures len { length out.new.list ≡ length out.old.list + record_len * (if is_some (table_at tables.now row) then 1 else 0) }
{
    if tables.name(row).is_some() {
        tables.write_info(row, out);
    }
}

/// Appends the record of each table, in order of rows.
fn write_records(tables: &Tables, out: &mut Bytes)
    requires { record_len * table_count tables.now ≤ out.old.spare }
    ensures bytes { out.new.list ≡ out.old.list ++ flat_map record_of tables.now.rows }
    ensures len { length out.new.list ≡ length out.old.list + record_len * table_count tables.now }
{
    for row in 0..tables.row_limit() {
        write_record(tables, row, out);
    }
}

/// Appends the registry's file: the file header with the text `Table registry` and this time, and the registry record of each table, in order
/// of rows. `registry_file_len` says how much room it needs.
#[tactic(auto, unfolding(tbl_model::specs::Dumps::registry_file))]
pub(crate) fn write_registry(tables: &Tables, out: &mut Bytes, clock: Clock)
    requires { header_len + record_len * table_count tables.now ≤ out.old.spare }
    ensures bytes { (s : State) → s.tables ≡ tables.now → s.seconds ≡ clock.seconds → s.sub ≡ clock.sub → out.new.list ≡ out.old.list ++ registry_file s }
    ensures len { length out.new.list ≡ length out.old.list + (header_len + record_len * table_count tables.now) }
{
    let header = header(REGISTRY_SUBTYPE, REGISTRY_TEXT, clock);
    write_file_header(out, &header);
    write_records(tables, out);
}

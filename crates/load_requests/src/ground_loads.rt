//! Loads from files, which the ground asks for.

ghost use Rattle.std.specs.Prelude.{◌≡◌, [], length, Some, None, IsSome, OnOk, OnErr, IfOk, IfErr};
ghost use Rattle.std.specs.Option.{ForSome};
ghost use Rattle.tbl_model.specs.Tables.{table_at, is_double};
ghost use Rattle.tbl_model.specs.TableSteps.{patch};
ghost use Rattle.tbl_model.specs.Refusals.{open_refusal, load_refusal};
ghost use Rattle.tbl_model.specs.GroundLoads.{load_effect};
ghost use Rattle.table_files.specs.Files.{with_image};
ghost use Rattle.desk.specs.Desk.{IsEmpty, output};
ghost use Rattle.desk.specs.Requests.{Served, command};
ghost use Rattle.load_requests.specs.Loads.{LeadsToFile, IsNoFile};

use crate::refusals::{buffer_refusal, lock_refusal, part_refusal, refusal};
use bitflags::Flags;
use desk::{BUFFERS, Desk, put_users};
use file_drawer::Drawer;
use request_effects::{Report, subject};
use std::alloc::Global;
use table_files::{IMAGE_PLACE, TableFile, read_table_file};
use tbl_kinds::{Admit, Answer, Memory, Name64, Options, Reply, Status};
use tbl_outside::Validator;
use tbl_registry::Tables;

/// What the headers of the uplinked table file of this name say, and its image bytes. Its spacecraft and its processor have to be
/// admitted.
#[inline]
pub(crate) fn table_file<'a>(
    drawer: &'a Drawer,
    admit: &Admit,
    file: &Name64,
) -> Result<(TableFile, &'a [u8]), Answer>
    ensures ok { IfOk result (λ read. LeadsToFile drawer.now admit.now file.now (with_image read.0 read.1.now)) }
    ensures count { IfOk result (λ read. length read.1.now ≡ read.0.count) }
    ensures err { IfErr result (IsNoFile drawer.now admit.now file.now) }
{
    let Some(contents) = drawer.get(file) else {
        return Err(Answer::plain(Status::ERR_FILE_NOT_FOUND));
    };
    match read_table_file(contents, admit) {
        Ok(parsed) => {
            let (_, image) = contents.split_at(IMAGE_PLACE);
            Ok((parsed, image))
        }
        Err(fault) => Err(fault.answer()),
    }
}

/// Why no load of the table of a row opens.
fn open_refusal(tables: &Tables, row: u8, double: bool) -> Option<Answer>
    ensures { ForSome (table_at tables.now row) (λ t. is_double t ≡ double → result ≡ open_refusal tables.now row t) }
{
    if double {
        lock_refusal(tables, row)
    } else {
        buffer_refusal(tables, false)
    }
}

/// Why so many bytes from this offset on don't go into the load of the table of a row, if they don't.
fn load_refusal(tables: &Tables, row: u8, offset: u32, len: u32) -> Option<Answer>
    ensures { ForSome (table_at tables.now row) (λ t. result ≡ load_refusal tables.now row t offset len) }
{
    let table = tables.row(row)?;
    if table.flags.contains(Options::DUMP_ONLY) {
        return refusal(Status::ERR_DUMP_ONLY);
    }
    if table.asked {
        return refusal(Status::ERR_UPDATE_PENDING);
    }
    if let Some(answer) = part_refusal(table.size, table.count, offset, len) {
        return Some(answer);
    }
    if table.load {
        return None;
    }
    open_refusal(tables, row, table.flags.contains(Options::DOUBLE))
}

/// Writes bytes into the load of a table, which is opened if none is open. In place, if nobody else has the image.
fn fill(
    alloc: Global,
    tables: &mut Tables,
    row: u8,
    offset: u32,
    bytes: &[u8],
) -> Result<(), Memory>
    requires table { IsSome (table_at tables.old row) }
    requires taken { ForSome (table_at tables.old row) (λ t. load_refusal tables.old row t offset (length bytes.now) ≡ None) }
    ensures ok { OnOk result (tables.new ≡ patch row offset bytes.now tables.old) }
    ensures err { OnErr result (tables.new ≡ tables.old) }
{
    if tables.load(row).is_some() && tables.write_load(row, offset, bytes) {
        return Ok(());
    }
    let image = tables.patched(alloc, row, offset, bytes)?;
    tables.set_load(row, image);
    Ok(())
}

/// The ground loads an uplinked file into the table that it names (`CFE_TBL_LOAD_CC`; cFE User's Guide, Table Services, "Loading tables"):
/// its bytes go into the open load of the table, which opens with the last image, or with zeros, if none is open. The load isn't validated
/// any more. `ERR_NO_BUFFER_AVAIL`: the reply gives the rows that use the shared buffers.
#[inline(never)]
pub fn load<C: Validator>(
    desk: &mut Desk<C>,
    reply: &mut Reply,
    report: &mut Report,
    file: &Name64,
) -> Result<Answer, Memory>
    requires empty { IsEmpty (output reply.old report.old) }
    ensures served { Served C.Validator (command (λ s. load_effect s file.now) 0) desk.old desk.new (output reply.new report.new) result }
{
    let (parsed, bytes) = match table_file(&desk.drawer, &desk.admit, file) {
        Ok(read) => read,
        Err(answer) => return Ok(answer),
    };
    let Some(table) = subject(&desk.tables, &parsed.name) else {
        return Ok(Answer::plain(Status::ERR_NO_SUCH_TABLE));
    };
    reply.bytes.reserve(BUFFERS)?;
    let row = table.row;
    if let Some(answer) = load_refusal(&desk.tables, row, parsed.offset, parsed.count) {
        report.name_table(table);
        put_users(&desk.tables, answer, &mut reply.bytes);
        return Ok(answer);
    }
    // The name comes last: if memory runs out the table still has the file of its last load.
    fill(desk.alloc, &mut desk.tables, row, parsed.offset, bytes)?;
    desk.tables.set_file(row, file);
    report.name_table(table);
    Ok(Answer {
        status: Status::SUCCESS,
        detail: 0,
    })
}

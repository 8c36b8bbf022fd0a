//! The ground's dumps, of tables and of the registry.

ghost use Rattle.std.specs.Prelude.{◌≡◌, ◌≤◌, ◌<◌, ℕ, List, true, length, None, Some, IsSome, IfNone, IfOk};
ghost use Rattle.std.specs.Option.{ForSome};
ghost use Rattle.tbl_model.specs.Tables.{table_at, is_dump_only, is_quiet, in_use};
ghost use Rattle.tbl_model.specs.Dumps.{dump_effect, dump_registry_effect, dump_refusal, image_dump_effect};
ghost use Rattle.request_effects.specs.Effects.{reply_limit};
ghost use Rattle.desk.specs.Desk.{Rest, state_at, IsOrderly, IsEmpty, output};
ghost use Rattle.desk.specs.Requests.{Made, Served, command};
ghost use Rattle.dump_requests.specs.Dumps.{CanDump, file_dump, table_dump, owner_dump, missing_status, comes_to};

use crate::files::{registry_file_len, write_image, write_registry};
use bitflags::Flags;
use desk::{BUFFERS, Desk, EVENT_LENGTH, put_users};
use file_drawer::{Contents, PutFault};
use request_effects::{Report, notice, subject};
use table_files::IMAGE_PLACE;
use tbl_kinds::{Answer, Bytes, Memory, Name40, Name64, Options, Reply, Status};
use tbl_model::TelemetryEvent;
use tbl_outside::Validator;
use tbl_registry::{Dump, Tables};

/// What the ground asks for by `CFE_TBL_DUMP_CC`.
#[derive(Drop)]
pub struct DumpCommand {
    /// 0 for the inactive and 1 for the active image.
    pub select: u16,
    /// The table's full name.
    pub table: Name40,
    /// The file that the image is written to.
    pub file: Name64,
}

// ---- files

/// The file that a dump is written to.
#[derive(Drop)]
struct DumpFile {
    /// The row of the table, if it is not of the registry.
    row: Option<u8>,
    name: Name64,
    contents: Bytes,
}

/// The file is put into the drawer, and its bytes are the reply; or the drawer is full.
fn put_file<C: Validator>(
    desk: &mut Desk<C>,
    reply: &mut Reply,
    report: &mut Report,
    file: DumpFile,
) -> Result<Answer, Memory>
    requires few { length file.contents.list ≤ reply_limit }
    requires empty { IsEmpty (output reply.old report.old) }
    requires packets { 48 ≤ reply.old.packets.spare }
    ensures served { Served C.Validator (file_dump file.row file.name file.contents.list) desk.old desk.new (output reply.new report.new) result }
{
    let DumpFile {
        row,
        name,
        mut contents,
    } = file;
    // Memory is taken before the drawer changes.
    let again = Contents::again(&mut contents)?;
    match desk.drawer.put(&name, again) {
        Ok(_) => {
            let len = contents.bytes().len() as u32;
            report.add_event(TelemetryEvent::Dumped {
                row,
                file: name,
                len,
            });
            reply.bytes = contents;
            Ok(Answer::plain(Status::SUCCESS))
        }
        Err(PutFault::Full) => Ok(Answer::plain(Status::ERR_DRAWER_FULL)),
        Err(PutFault::Memory) => Err(Memory),
    }
}

/// What is answered if the table was never loaded (`active`), or has no open load.
fn missing_status(active: bool) -> Status
    ensures { result ≡ missing_status active }
{
    if active {
        Status::ERR_NEVER_LOADED
    } else {
        Status::ERR_NO_LOAD
    }
}

/// The table file of the last image of the table of a row (`active`), or of that of its open load; or which of them is missing.
fn image_file<C: Validator>(
    desk: &Desk<C>,
    row: u8,
    active: bool,
) -> Result<Result<Bytes, Status>, Memory>
    requires table { IsSome (table_at desk.now.tables row) }
    ensures comes_to { IfOk result (λ file. (rest : Rest) (name : List ℕ)
        → ForSome (table_at desk.now.tables row) (λ t. image_dump_effect (state_at rest desk.now) name row t active ≡ comes_to (state_at rest desk.now) row name file)) }
    ensures few { IfOk result (λ file. IfOk file (λ contents. length contents.list ≤ reply_limit)) }
{
    let Some(image) = desk.tables.image(row, active) else {
        return Ok(Err(missing_status(active)));
    };
    let Some(name) = desk.tables.name(row) else {
        unreachable!();
    };
    let mut contents = Bytes::make(desk.alloc, IMAGE_PLACE + image.len())?;
    write_image(&mut contents, name, image, desk.clock);
    Ok(Ok(contents))
}

// ---- tables

/// Whether the table of the row is dump-only.
fn is_dump_only(tables: &Tables, row: u8) -> bool
    ensures { ForSome (table_at tables.now row) (λ t. result ≡ is_dump_only t) }
{
    match tables.row(row) {
        Some(table) => table.flags.contains(Options::DUMP_ONLY),
        None => false,
    }
}

/// Why the dump of the dump-only table of a row isn't requested, if it isn't.
fn dump_refusal(tables: &Tables, row: u8) -> Option<Answer>
    requires table { IsSome (table_at tables.now row) }
    requires dump_only { ForSome (table_at tables.now row) (λ t. is_dump_only t ≡ true) }
    ensures refusal { ForSome (table_at tables.now row) (λ t. result ≡ dump_refusal tables.now t) }
    ensures quiet { IfNone result (ForSome (table_at tables.now row) (λ t. is_quiet t.dump ≡ true)) }
    ensures free { IfNone result (length (in_use tables.now) < 4) }
{
    let Some(table) = tables.row(row) else {
        unreachable!();
    };
    if table.dump != Dump::Quiet {
        return Some(Answer::plain(Status::ERR_DUMP_PENDING));
    }
    if tables.all_buffers_used() {
        return Some(Answer::plain(Status::ERR_NO_BUFFER_AVAIL));
    }
    None
}

/// The dump of the dump-only table of a row is requested of its owner, who is notified; or it is refused.
fn ask_owner<C: Validator>(
    desk: &mut Desk<C>,
    reply: &mut Reply,
    report: &mut Report,
    row: u8,
    file: &Name64,
) -> Answer
    requires can { CanDump row desk.old (output reply.old report.old) }
    requires dump_only { ForSome (table_at desk.old.tables row) (λ t. is_dump_only t ≡ true) }
    ensures made { Made C.Validator (owner_dump row file.now) desk.old desk.new (output reply.new report.new) result }
{
    if let Some(answer) = dump_refusal(&desk.tables, row) {
        put_users(&desk.tables, answer, &mut reply.bytes);
        return answer;
    }
    report.notify(notice(&desk.tables, row));
    desk.tables.ask_dump(row, file);
    Answer::plain(Status::SUCCESS)
}

/// The image of the table of a row is written, or its owner is asked for the dump.
fn dump_found<C: Validator>(
    desk: &mut Desk<C>,
    reply: &mut Reply,
    report: &mut Report,
    row: u8,
    asked: &DumpCommand,
) -> Result<Answer, Memory>
    requires { CanDump row desk.old (output reply.old report.old) }
    ensures served { Served C.Validator (table_dump row asked.now.select asked.now.file) desk.old desk.new (output reply.new report.new) result }
{
    let Some(active) = desk.tables.selected(row, asked.select) else {
        return Ok(Answer::plain(Status::ERR_BAD_SELECT));
    };
    // In cFE that image is memory of the owner, and only the owner knows when it can be copied.
    if is_dump_only(&desk.tables, row) {
        return Ok(ask_owner(desk, reply, report, row, &asked.file));
    }
    match image_file(desk, row, active)? {
        Ok(contents) => {
            let file = DumpFile {
                row: Some(row),
                name: asked.file.copy(),
                contents,
            };
            put_file(desk, reply, report, file)
        }
        Err(status) => Ok(Answer::plain(status)),
    }
}

/// The ground dumps a table into a file (`CFE_TBL_DUMP_CC`; cFE User's Guide, Table Services, "Dumping tables"): its last image, or that of
/// its open load. Of a dump-only table either selects the one image that it has: the owner is asked to fill the dump, and is notified.
/// `ERR_NO_BUFFER_AVAIL`: the reply gives the rows that have the shared buffers.
#[inline(never)]
pub fn dump<C: Validator>(
    desk: &mut Desk<C>,
    reply: &mut Reply,
    report: &mut Report,
    asked: &DumpCommand,
) -> Result<Answer, Memory>
    requires orderly { IsOrderly C.Validator desk.old }
    requires empty { IsEmpty (output reply.old report.old) }
    ensures served { Served C.Validator (command (λ s. dump_effect s asked.now.select asked.now.table asked.now.file) 1) desk.old desk.new (output reply.new report.new) result }
{
    let Some(table) = subject(&desk.tables, &asked.table) else {
        return Ok(Answer::plain(Status::ERR_NO_SUCH_TABLE));
    };
    reply.bytes.reserve(BUFFERS)?;
    // The notice is shorter than an event.
    reply.packets.reserve(EVENT_LENGTH + EVENT_LENGTH)?;
    let answer = dump_found(desk, reply, report, table.row, asked)?;
    report.name_table(table);
    Ok(answer)
}

// ---- the registry

/// The ground dumps the registry into a file (`CFE_TBL_DUMP_REGISTRY_CC`): the record of each table, in order of rows.
#[inline(never)]
pub fn dump_registry<C: Validator>(
    desk: &mut Desk<C>,
    reply: &mut Reply,
    report: &mut Report,
    file: &Name64,
) -> Result<Answer, Memory>
    requires empty { IsEmpty (output reply.old report.old) }
    ensures served { Served C.Validator (command (λ s. dump_registry_effect s file.now) 1) desk.old desk.new (output reply.new report.new) result }
{
    reply.packets.reserve(EVENT_LENGTH + EVENT_LENGTH)?;
    let mut contents = Bytes::make(desk.alloc, registry_file_len(&desk.tables))?;
    desk.tables.keep_check_words();
    write_registry(&desk.tables, &mut contents, desk.clock);
    let file = DumpFile {
        row: None,
        name: file.copy(),
        contents,
    };
    put_file(desk, reply, report, file)
}

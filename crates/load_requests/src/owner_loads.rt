//! Images and files that the owners of tables load.

ghost use Rattle.std.specs.Prelude.{◌≡◌, ◌<◌, ◌-◌, ◌^◌, ℕ, List, [], ◌∷◌, length, None, Some, IsSome, option_copied, OnOk, IfOk};
ghost use Rattle.std.specs.Option.{ForSome};
ghost use Rattle.std.specs.Str.{bytes_eq};
ghost use Rattle.tbl_kinds.specs.declared.entry.Reply.{Reply};
ghost use Rattle.tbl_model.specs.Tables.{table_at, is_double};
ghost use Rattle.tbl_model.specs.TableSteps.{put, set_time};
ghost use Rattle.tbl_model.specs.Refusals.{closed_refusal, busy_refusal, image_refusal, file_refusal};
ghost use Rattle.table_files.specs.Files.{with_image};
ghost use Rattle.validation.specs.Kits.{MayAsk};
ghost use Rattle.request_effects.specs.Reports.{nothing_reported};
ghost use Rattle.desk.specs.Desk.{IsOrderly, IsEmpty, output};
ghost use Rattle.desk.specs.Requests.{Made, Served};
ghost use Rattle.desk.specs.Rooms.{load_room};
ghost use Rattle.load_requests.specs.Loads.{image_load, file_load, admission, with_file, FitsIn, IsRoomy, WasJudged, verdict_refusal, verdict_events};

use crate::ground_loads::table_file;
use crate::refusals::{buffer_refusal, lock_refusal, part_refusal, refusal};
use bitflags::Flags;
use buffer_pairs::{Image, SPARE_LIMIT};
use desk::{
    BUFFERS, Desk, EVENT_LENGTH, activated, copy_room, event_room, named, put_users, validator,
};
use request_effects::Report;
use table_files::TableFile;
use tbl_kinds::{Answer, Bytes, Memory, Name40, Name64, Options, Reply, Status};
use tbl_model::TelemetryEvent;
use tbl_outside::Validator;
use tbl_registry::Tables;

// ---- refusals

/// Why no image goes active now as the next one of the table of a row.
fn busy_refusal(tables: &Tables, row: u8, double: bool) -> Option<Answer>
    ensures { ForSome (table_at tables.now row) (λ t. is_double t ≡ double → result ≡ busy_refusal tables.now row t) }
{
    if let Some(answer) = lock_refusal(tables, row) {
        return Some(answer);
    }
    buffer_refusal(tables, double)
}

/// Why the owner of the table of a row loads nothing into it now, if so: the table is dump-only (`ERR_DUMP_ONLY`), or a
/// load of it is open (`ERR_LOAD_IN_PROGRESS`).
pub(crate) fn closed_refusal(tables: &Tables, row: u8) -> Option<Answer>
    ensures { ForSome (table_at tables.now row) (λ t. result ≡ closed_refusal t) }
{
    let table = tables.row(row)?;
    if table.flags.contains(Options::DUMP_ONLY) {
        return refusal(Status::ERR_DUMP_ONLY);
    }
    if table.load {
        return refusal(Status::ERR_LOAD_IN_PROGRESS);
    }
    None
}

/// Why an image of so many bytes isn't taken as the next one of the table of a row, if it isn't.
pub(crate) fn image_refusal(tables: &Tables, row: u8, len: usize) -> Option<Answer>
    ensures { ForSome (table_at tables.now row) (λ t. result ≡ image_refusal tables.now row t len) }
{
    if let Some(answer) = closed_refusal(tables, row) {
        return Some(answer);
    }
    let table = tables.row(row)?;
    if len != table.size as usize {
        return refusal(Status::ERR_IMAGE_SIZE);
    }
    busy_refusal(tables, row, table.flags.contains(Options::DOUBLE))
}

/// Whether the table of the row has this full name.
fn is_named(tables: &Tables, row: u8, name: &Name40) -> bool
    ensures { ForSome (table_at tables.now row) (λ t. result ≡ bytes_eq name.now t.name) }
{
    match tables.name(row) {
        Some(found) => name.bytes() == found.bytes(),
        None => false,
    }
}

/// Why a file isn't taken by the owner of the table of a row, into which a load may go.
pub(crate) fn file_refusal(tables: &Tables, row: u8, file: &TableFile) -> Option<Answer>
    ensures { (image : List ℕ) → length image ≡ file.now.count → ForSome (table_at tables.now row) (λ t. result ≡ file_refusal tables.now row t (with_image file.now image)) }
{
    let table = tables.row(row)?;
    if !is_named(tables, row, &file.name) {
        return refusal(Status::ERR_FILE_FOR_WRONG_TABLE);
    }
    if let Some(answer) = part_refusal(table.size, table.count, file.offset, file.count) {
        return Some(answer);
    }
    busy_refusal(tables, row, table.flags.contains(Options::DOUBLE))
}

// ---- room

/// The room for the packets of a load that the owner of the table in the row asks for.
fn load_room(tables: &Tables, row: u8) -> usize
    ensures { ForSome (table_at tables.now row) (λ t. result ≡ load_room t) }
{
    let judges = match tables.row(row) {
        Some(table) => table.validator.is_some(),
        None => false,
    };
    copy_room(tables, row) + event_room(judges) + EVENT_LENGTH
}

/// Takes the room for the rows that use the buffers, and for packets.
fn take_room(tables: &Tables, reply: &mut Reply, row: u8) -> Result<(), Memory>
    requires bytes { reply.old.bytes.list ≡ [] }
    requires packets { reply.old.packets.list ≡ [] }
    ensures { OnOk result (IsRoomy tables.now row reply.new) }
{
    reply.bytes.reserve(BUFFERS)?;
    reply.packets.reserve(load_room(tables, row))?;
    Ok(())
}

// ---- the verdict on an image

/// The verdict of the function of the table of a row on an image, if the table has one.
fn judge<C: Validator>(desk: &mut Desk<C>, row: u8, image: &Image) -> Option<i32>
    requires table { IsSome (table_at desk.old.tables row) }
    requires kit { ForSome (table_at desk.old.tables row) (λ t. ForSome t.validator (MayAsk C.asked 1 desk.old.kit)) }
    ensures judged { ForSome (table_at desk.old.tables row) (λ t. WasJudged C.Validator t.validator image.now result desk.old.kit desk.new.kit) }
    ensures same { desk.new ≡ record desk.old { kit = desk.new.kit } }
{
    let number = validator(&desk.tables, row);
    desk.kit.judge(number, image.bytes())
}

/// Reports that a verdict came, if one did.
fn tell_verdict(row: u8, verdict: Option<i32>, report: &mut Report)
    requires { report.old ≡ nothing_reported }
    ensures { report.new ≡ record nothing_reported { events = verdict_events row verdict; verdicts = verdict ∷ None ∷ [] } }
{
    if let Some(verdict) = verdict {
        report.add_event(TelemetryEvent::Judged { row, verdict });
    }
    report.judge([verdict, None]);
}

/// Why an image isn't taken, by the verdict on it.
fn verdict_refusal(verdict: Option<i32>) -> Option<Answer>
    ensures { result ≡ verdict_refusal verdict }
{
    match verdict {
        Some(verdict) if verdict.cast_unsigned() != 0 => Some(Answer {
            status: Status::ERR_VALIDATION_FAILED,
            detail: verdict.cast_unsigned(),
        }),
        _ => None,
    }
}

// ---- what a load comes to

/// The image is the last one of the table of a row, at the service's time, and from this file, if it is from one.
fn activate<C: Validator>(desk: &mut Desk<C>, row: u8, image: Image, file: Option<&Name64>)
    requires table { IsSome (table_at desk.old.tables row) }
    requires fits { ForSome (table_at desk.old.tables row) (λ t. FitsIn desk.old.tables row t image) }
    requires few { ForSome (table_at desk.old.tables row) (λ t. t.count < 2 ^ 32 - 1) }
    ensures { desk.new ≡ record desk.old { tables = with_file row (option_copied file.entry) (set_time row desk.old.clock.seconds desk.old.clock.sub (put row image desk.old.tables)) } }
{
    desk.tables.put(row, image);
    desk.tables
        .set_time(row, desk.clock.seconds, desk.clock.sub);
    if let Some(file) = file {
        desk.tables.set_file(row, file);
    }
}

/// An image that nothing refuses is active, unless the table's function judges otherwise.
fn admit<C: Validator>(
    desk: &mut Desk<C>,
    report: &mut Report,
    row: u8,
    image: Image,
    file: Option<&Name64>,
) -> Answer
    requires table { IsSome (table_at desk.old.tables row) }
    requires orderly { IsOrderly C.Validator desk.old }
    requires fits { ForSome (table_at desk.old.tables row) (λ t. FitsIn desk.old.tables row t image) }
    requires report { report.old ≡ nothing_reported }
    ensures made { (reply : Reply) → IsRoomy desk.old.tables row reply → Made C.Validator (admission row image (option_copied file.entry)) desk.old desk.new (output reply report.new) result }
{
    // The event counts the image that is to go active, so it is made before. The image is whole before its function is asked: no
    // further call can fail, so a verdict is never given twice.
    let table = named(&desk.tables, row);
    let active = activated(&desk.tables, row);
    let verdict = judge(desk, row, &image);
    tell_verdict(row, verdict, report);
    if let Some(answer) = verdict_refusal(verdict) {
        return answer;
    }
    activate(desk, row, image, file);
    report.name_table(table);
    report.add_event(active);
    Answer::plain(Status::SUCCESS)
}

// ---- the requests

/// An image of bytes for the table of a row. Few are copied into memory that the table has already, and many are kept once.
fn new_image<C: Validator>(desk: &mut Desk<C>, row: u8, bytes: &mut Bytes) -> Result<Image, Memory>
    requires { IsSome (table_at desk.old.tables row) }
    ensures image { IfOk result (λ image. image ≡ bytes.old.list) }
    ensures same { bytes.new ≡ bytes.old }
    ensures desk { desk.new ≡ desk.old }
{
    if bytes.bytes().len() <= SPARE_LIMIT {
        return desk.tables.whole_image(desk.alloc, row, bytes.bytes());
    }
    Image::of_bytes(desk.alloc, bytes)
}

/// The owner of the table of a row loads an image of it (`CFE_TBL_Load` from an address; cFE User's Guide, Table Services, "Loading
/// tables"): if nothing refuses it and the table's validation function, if it has one, answers 0, it is active. The function is asked
/// once, after all other tests. `ERR_NO_BUFFER_AVAIL`: the reply gives the rows that use the shared buffers; `ERR_VALIDATION_FAILED`: the
/// detail is the verdict.
#[inline(never)]
pub fn load_image<C: Validator>(
    desk: &mut Desk<C>,
    reply: &mut Reply,
    report: &mut Report,
    row: u8,
    image: &mut Bytes,
) -> Result<Answer, Memory>
    requires table { IsSome (table_at desk.old.tables row) }
    requires orderly { IsOrderly C.Validator desk.old }
    requires empty { IsEmpty (output reply.old report.old) }
    ensures served { Served C.Validator (image_load row image.old.list) desk.old desk.new (output reply.new report.new) result }
    ensures same { image.new ≡ image.old }
{
    take_room(&desk.tables, reply, row)?;
    if let Some(answer) = image_refusal(&desk.tables, row, image.bytes().len()) {
        put_users(&desk.tables, answer, &mut reply.bytes);
        return Ok(answer);
    }
    let image = new_image(desk, row, image)?;
    Ok(admit(desk, report, row, image, None))
}

/// The owner of the table of a row loads a file of it, or of a part of it (`CFE_TBL_Load` from a file): its bytes over the last image, or
/// over zeros. The table's function is asked once, on the whole image that this makes, after all other tests.
pub fn load_file<C: Validator>(
    desk: &mut Desk<C>,
    reply: &mut Reply,
    report: &mut Report,
    row: u8,
    file: &Name64,
) -> Result<Answer, Memory>
    requires table { IsSome (table_at desk.old.tables row) }
    requires orderly { IsOrderly C.Validator desk.old }
    requires empty { IsEmpty (output reply.old report.old) }
    ensures served { Served C.Validator (file_load row file.now) desk.old desk.new (output reply.new report.new) result }
{
    // That a table takes no load is reported before a file that isn't there.
    if let Some(answer) = closed_refusal(&desk.tables, row) {
        return Ok(answer);
    }
    let (parsed, bytes) = match table_file(&desk.drawer, &desk.admit, file) {
        Ok(read) => read,
        Err(answer) => return Ok(answer),
    };
    take_room(&desk.tables, reply, row)?;
    if let Some(answer) = file_refusal(&desk.tables, row, &parsed) {
        put_users(&desk.tables, answer, &mut reply.bytes);
        return Ok(answer);
    }
    let image = desk.tables.patched(desk.alloc, row, parsed.offset, bytes)?;
    Ok(admit(desk, report, row, image, Some(file)))
}

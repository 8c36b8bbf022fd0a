//! Validations, which the ground asks for and owners have done.

ghost use Rattle.std.specs.Prelude.{◌≡◌, ◌++◌, ◌∷◌, [], if◌then◌else◌, true, Some, IsSome, IfSome, is_some};
ghost use Rattle.std.specs.Option.{ForSome};
ghost use Rattle.tbl_kinds.specs.declared.entry.Reply.{Reply as Replied};
ghost use Rattle.tbl_model.specs.Tables.{table_at};
ghost use Rattle.tbl_model.specs.Pending.{is_pending};
ghost use Rattle.tbl_model.specs.Telemetry.{is_good, verdict_bits};
ghost use Rattle.tbl_model.specs.Validations.{first_pending};
ghost use Rattle.request_effects.specs.Reports.{nothing_reported};
ghost use Rattle.desk.specs.Desk.{IsOrderly, IsEmpty, output};
ghost use Rattle.desk.specs.Requests.{Made, Served};
ghost use Rattle.update_requests.specs.Rooms.{IsAsked, MadeIn};
ghost use Rattle.update_requests.specs.Validations.{validation, validation_in, selected_validation, missing_refusal, full_refusal, app_validation};

use crate::judging::{conclude, validate_pending};
use desk::{Desk, EVENT_LENGTH};
use request_effects::{Report, notice, subject};
use tbl_kinds::{Answer, Memory, Name40, Reply, Status};
use tbl_outside::Validator;
use tbl_registry::Tables;
use validation::{PendFault, Pending};

// ---- what the ground asks for

/// What is missing for a validation of this image of the table of a row, if something is.
fn missing(tables: &Tables, row: u8, active: bool) -> Option<Answer>
    ensures { ForSome (table_at tables.now row) (λ t. result ≡ missing_refusal t active) }
{
    let table = tables.row(row)?;
    if active && table.count == 0 {
        return Some(Answer::plain(Status::ERR_NEVER_LOADED));
    }
    if !active && !table.load {
        return Some(Answer::plain(Status::ERR_NO_LOAD));
    }
    // Another verdict could take the mark from a load that is about to go active.
    if !active && table.asked {
        return Some(Answer::plain(Status::ERR_UPDATE_PENDING));
    }
    None
}

/// Whether the table of the row has a validation function.
fn has_function(tables: &Tables, row: u8) -> bool
    ensures { ForSome (table_at tables.now row) (λ t. result ≡ is_some t.validator) }
{
    match tables.row(row) {
        Some(table) => table.validator.is_some(),
        None => false,
    }
}

/// The validation of this image comes after those that are pending, or is refused.
fn ask(pending: &mut Pending, row: u8, active: bool) -> Option<Answer>
    ensures refusal { result ≡ full_refusal pending.old row active }
    ensures pending { pending.new ≡ (if is_some result then pending.old else pending.old ++ (row, active) ∷ []) }
{
    match pending.request(row, active) {
        Ok(()) => None,
        Err(PendFault::Twice) => Some(Answer::plain(Status::ERR_VALIDATION_PENDING)),
        Err(PendFault::Full) => Some(Answer::plain(Status::ERR_VALIDATIONS_FULL)),
    }
}

/// Asks for a validation of the last image of the table of a row (`active`), or of that of its open load. It is pending until the owner,
/// who is notified, has it done; a table without a validation function needs none.
fn request_validation<C: Validator>(
    desk: &mut Desk<C>,
    report: &mut Report,
    row: u8,
    active: bool,
) -> Answer
    requires { IsAsked C.Validator row desk.old report.old }
    ensures made { MadeIn 48 C.Validator (validation_in row (Some active)) desk.old desk.new report.new result }
{
    if let Some(answer) = missing(&desk.tables, row, active) {
        return answer;
    }
    if !has_function(&desk.tables, row) {
        conclude(desk, report, row, active, 0);
        return Answer::plain(Status::SUCCESS);
    }
    if let Some(answer) = ask(&mut desk.pending, row, active) {
        return answer;
    }
    report.notify(notice(&desk.tables, row));
    Answer::plain(Status::SUCCESS)
}

/// Asks for a validation of the image that is selected of the table of a row.
fn validate_selected<C: Validator>(
    desk: &mut Desk<C>,
    report: &mut Report,
    row: u8,
    select: u16,
) -> Answer
    requires { IsAsked C.Validator row desk.old report.old }
    ensures made { MadeIn 48 C.Validator (selected_validation row select) desk.old desk.new report.new result }
{
    match desk.tables.selected(row, select) {
        None => Answer::plain(Status::ERR_BAD_SELECT),
        Some(active) => request_validation(desk, report, row, active),
    }
}

/// The ground asks for the validation of an image of the table of this name (`CFE_TBL_VALIDATE_CC`; cFE User's Guide, Table Services,
/// "Validating tables"): of the last one, or of that of the open load. Its owner is notified if it has a validation function.
pub fn validate<C: Validator>(
    desk: &mut Desk<C>,
    reply: &mut Reply,
    report: &mut Report,
    select: u16,
    name: &Name40,
) -> Result<Answer, Memory>
    requires orderly { IsOrderly C.Validator desk.old }
    requires empty { IsEmpty (output reply.old report.old) }
    ensures served { Served C.Validator (validation select name.now) desk.old desk.new (output reply.new report.new) result }
{
    let Some(table) = subject(&desk.tables, name) else {
        return Ok(Answer::plain(Status::ERR_NO_SUCH_TABLE));
    };
    // The notice is shorter than an event.
    reply.packets.reserve(EVENT_LENGTH + EVENT_LENGTH)?;
    let answer = validate_selected(desk, report, table.row, select);
    report.name_table(table);
    Ok(answer)
}

// ---- what owners have done

/// The validation that is done first: that of the last image.
fn first_pending(pending: &Pending, row: u8) -> Option<bool>
    ensures first { result ≡ first_pending pending.now row }
    ensures pending { IfSome result (λ active. is_pending row active pending.now ≡ true) }
{
    if pending.has(row, true) {
        return Some(true);
    }
    if pending.has(row, false) {
        return Some(false);
    }
    None
}

/// What an owner is answered whose table's function gave this verdict.
fn verdict_answer(verdict: i32) -> Answer
    ensures { result ≡ record { status = if is_good verdict then Status.SUCCESS else Status.ERR_VALIDATION_FAILED; detail = verdict_bits verdict } }
{
    let detail = verdict.cast_unsigned();
    let status = if detail == 0 {
        Status::SUCCESS
    } else {
        Status::ERR_VALIDATION_FAILED
    };
    Answer { status, detail }
}

/// The owner of the table in the row has a validation of it done that is pending (`CFE_TBL_Validate`), that of the last image first. The one
/// event that it reports fits into the room for an event. `ERR_VALIDATION_FAILED`: the detail is the verdict.
/// `INFO_NO_VALIDATION_PENDING`: there is none.
pub fn app_validate<C: Validator>(desk: &mut Desk<C>, report: &mut Report, row: u8) -> Answer
    requires table { IsSome (table_at desk.old.tables row) }
    requires orderly { IsOrderly C.Validator desk.old }
    requires report { report.old ≡ nothing_reported }
    ensures served { (reply : Replied) → IsEmpty (output reply report.old) → Made C.Validator (app_validation row) desk.old desk.new (output reply report.new) result }
{
    let Some(active) = first_pending(&desk.pending, row) else {
        return Answer::plain(Status::INFO_NO_VALIDATION_PENDING);
    };
    let Some(verdict) = validate_pending(desk, report, row, active) else {
        unreachable!();
    };
    report.judge([Some(verdict), None]);
    verdict_answer(verdict)
}

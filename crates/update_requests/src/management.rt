//! All that is pending for a table, which its owner has done or asks for.

ghost use Rattle.std.specs.Prelude.{◌≡◌, if◌then◌else◌, IsSome};
ghost use Rattle.std.specs.Option.{ForSome};
ghost use Rattle.tbl_model.specs.State.{State};
ghost use Rattle.tbl_model.specs.Tables.{table_at};
ghost use Rattle.tbl_model.specs.TableSteps.{fill_dump};
ghost use Rattle.tbl_model.specs.Effects.{answered};
ghost use Rattle.tbl_model.specs.Management.{is_requested, pending_status, get_status_effect};
ghost use Rattle.desk.specs.Desk.{IsOrderly, IsEmpty, output};
ghost use Rattle.desk.specs.Requests.{Made, Served};
ghost use Rattle.desk.specs.Rooms.{manage_room};
ghost use Rattle.update_requests.specs.Management.{management, verdicts_of, bits_of, answer_by, HasPlace};

use crate::activations::{take_update, update_room};
use crate::judging::validate_pending;
use desk::{Desk, check, event_room};
use request_effects::Report;
use tbl_kinds::{Answer, Memory, Reply, Status};
use tbl_outside::Validator;
use tbl_registry::{Dump, Tables};
use validation::Pending;

/// The room for the packets of all that is pending for the table in the row: of its validations, and of an update.
fn manage_room(tables: &Tables, pending: &Pending, row: u8) -> usize
    requires { IsSome (table_at tables.now row) }
    ensures { ForSome (table_at tables.now row) (λ t. result ≡ manage_room pending.now row t) }
{
    let first = event_room(pending.has(row, true));
    let second = event_room(pending.has(row, false));
    update_room(tables, row) + first + second
}

/// The dump of the table of a row is filled with its last image, if one is requested. Whether it was.
fn fill_pending(tables: &mut Tables, row: u8) -> bool
    ensures filled { ForSome (table_at tables.old row) (λ t. result ≡ is_requested t.dump) }
    ensures tables { tables.new ≡ (if result then fill_dump row tables.old else tables.old) }
{
    let Some(table) = tables.row(row) else {
        return false;
    };
    if table.dump != Dump::Asked {
        return false;
    }
    tables.fill_dump(row);
    true
}

/// The verdicts that were given, in order.
fn verdicts(first: Option<i32>, second: Option<i32>) -> [Option<i32>; 2]
    ensures { result ≡ verdicts_of first second }
{
    match first {
        None => [second, None],
        Some(_) => [first, second],
    }
}

/// A bit for each thing that was done: the last image's validation, the load's, the update, the filling of the dump.
fn bits(first: bool, second: bool, updated: bool, filled: bool) -> u8
    ensures { result ≡ bits_of first second updated filled }
{
    let first = if first { 1 } else { 0 };
    let second = if second { 2 } else { 0 };
    let third = if updated { 4 } else { 0 };
    let fourth = if filled { 8 } else { 0 };
    first + second + third + fourth
}

/// What an owner is answered, by what was in the way of the update.
fn update_answer(refusal: Option<Answer>) -> Answer
    ensures { result ≡ answer_by refusal }
{
    match refusal {
        Some(answer) if answer.status == Status::INFO_TABLE_LOCKED => answer,
        Some(_) => Answer::plain(Status::SUCCESS),
        None => Answer::plain(Status::INFO_UPDATED),
    }
}

/// Does all that is pending for the table in the row, one thing after another, and reports it.
fn manage_all<C: Validator>(
    desk: &mut Desk<C>,
    reply: &mut Reply,
    report: &mut Report,
    row: u8,
) -> Answer
    requires { HasPlace C.Validator row desk.old (output reply.old report.old) }
    ensures made { Made C.Validator (management row) desk.old desk.new (output reply.new report.new) result }
{
    let first = validate_pending(desk, report, row, true);
    let second = validate_pending(desk, report, row, false);
    report.judge(verdicts(first, second));
    let refusal = take_update(desk, report, row);
    let filled = fill_pending(&mut desk.tables, row);
    let did = bits(first.is_some(), second.is_some(), refusal.is_none(), filled);
    reply.bytes.append(&[did]);
    update_answer(refusal)
}

/// The owner of the table in the row has all done that is pending for it (`CFE_TBL_Manage`; cFE User's Guide, Table Services, "Managing
/// tables"). The reply is one byte: bit 0 for the validation of the last image, bit 1 for that of the load's, bit 2 for the update, bit 3
/// for the filling of a dump. `INFO_UPDATED`: the update was made. `INFO_TABLE_LOCKED`: it was requested, and the detail is the handle
/// that is in the way.
pub fn manage<C: Validator>(
    desk: &mut Desk<C>,
    reply: &mut Reply,
    report: &mut Report,
    row: u8,
) -> Result<Answer, Memory>
    requires table { IsSome (table_at desk.old.tables row) }
    requires orderly { IsOrderly C.Validator desk.old }
    requires empty { IsEmpty (output reply.old report.old) }
    ensures served { Served C.Validator (management row) desk.old desk.new (output reply.new report.new) result }
{
    // The byte of the reply and the packets have their room before anything is done.
    reply.bytes.reserve(1)?;
    reply
        .packets
        .reserve(manage_room(&desk.tables, &desk.pending, row))?;
    Ok(manage_all(desk, reply, report, row))
}

/// What is pending for the table in the row.
fn status(tables: &Tables, pending: &Pending, row: u8) -> Status
    ensures { ForSome (table_at tables.now row) (λ t. result ≡ pending_status pending.now row t) }
{
    let Some(table) = tables.row(row) else {
        return Status::SUCCESS;
    };
    if pending.has(row, true) || pending.has(row, false) {
        return Status::INFO_VALIDATION_PENDING;
    }
    if table.asked {
        return Status::INFO_UPDATE_PENDING;
    }
    if table.dump != Dump::Quiet {
        return Status::INFO_DUMP_PENDING;
    }
    Status::SUCCESS
}

/// An application asks what is pending for a table (`CFE_TBL_GetStatus`), whose owner it need not be.
#[tactic(auto, unfolding(tbl_model::specs::Management::get_status_effect))]
pub fn get_status<C: Validator>(desk: &Desk<C>, app: u8, handle: u16) -> Answer
    ensures { (s : State) → s.tables ≡ desk.now.tables → s.pending ≡ desk.now.pending → s.apps ≡ desk.now.apps → get_status_effect s app handle ≡ answered s result.status result.detail }
{
    match check(&desk.tables, &desk.apps, app, handle, false) {
        Err(status) => Answer::plain(status),
        Ok(row) => Answer::plain(status(&desk.tables, &desk.pending, row)),
    }
}

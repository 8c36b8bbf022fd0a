//! Loads go active: the ground asks for it, and the owners of tables do it.

ghost use Rattle.std.specs.Prelude.{◌≡◌, ◌-◌, ◌<◌, ◌≤◌, ◌^◌, length, IsSome, OnOk};
ghost use Rattle.std.specs.Option.{ForSome};
ghost use Rattle.tbl_kinds.specs.declared.entry.Reply.{Reply as Replied};
ghost use Rattle.tbl_model.specs.Tables.{table_at};
ghost use Rattle.tbl_model.specs.Refusals.{activation_refusal, update_refusal};
ghost use Rattle.validation.specs.Ready.{HasItsLoad};
ghost use Rattle.request_effects.specs.Reports.{most_events};
ghost use Rattle.desk.specs.Desk.{IsOrderly, IsEmpty, output};
ghost use Rattle.desk.specs.Requests.{Made, Served};
ghost use Rattle.desk.specs.Rooms.{update_room};
ghost use Rattle.update_requests.specs.Activations.{activation, activation_in, update_in, Updates};
ghost use Rattle.update_requests.specs.Rooms.{IsAsked, IsFree, notice_room};

use bitflags::Flags;
use desk::{Desk, EVENT_LENGTH, NOTICE_LENGTH, activated, copy_room, event_room, named};
use request_effects::{Report, notice, subject};
use tbl_kinds::{Answer, Memory, Name40, Options, Reply, Status};
use tbl_outside::Validator;
use tbl_registry::Tables;
use validation::Pending;

// ---- what the ground asks for

/// Why the activation of the load of the table of a row isn't requested, if it isn't.
fn activation_refusal(tables: &Tables, pending: &Pending, row: u8) -> Option<Answer>
    ensures { ForSome (table_at tables.now row) (λ t. result ≡ activation_refusal pending.now row t) }
{
    let table = tables.row(row)?;
    if table.flags.contains(Options::DUMP_ONLY) {
        return Some(Answer::plain(Status::ERR_DUMP_ONLY));
    }
    if !table.load {
        return Some(Answer::plain(Status::ERR_NO_LOAD));
    }
    if table.asked {
        return Some(Answer::plain(Status::ERR_UPDATE_PENDING));
    }
    // A load whose validation is pending has no mark yet, which is another reason than a bad verdict.
    if pending.has(row, false) {
        return Some(Answer::plain(Status::ERR_VALIDATION_PENDING));
    }
    if !table.checked {
        return Some(Answer::plain(Status::ERR_NOT_VALIDATED));
    }
    None
}

/// Takes the room for the notice to the owner of the table of a row, if it is to be notified, and for the event of the command.
fn take_notice_room(tables: &Tables, reply: &mut Reply, row: u8) -> Result<(), Memory>
    requires table { IsSome (table_at tables.now row) }
    requires free { IsFree 24 reply.old }
    ensures free { OnOk result (ForSome (table_at tables.now row) (λ t. IsFree (notice_room t) reply.new)) }
{
    if notice(tables, row).is_some() {
        reply.packets.reserve(EVENT_LENGTH + NOTICE_LENGTH)?;
    }
    Ok(())
}

/// Asks that the load of the table of a row goes active. It does once the owner, who is to be notified, updates the table.
fn request_activation<C: Validator>(desk: &mut Desk<C>, report: &mut Report, row: u8) -> Answer
    requires { IsAsked C.Validator row desk.old report.old }
    ensures made { (reply : Replied) → ForSome (table_at desk.old.tables row) (λ t. IsFree (notice_room t) reply)
        → Made C.Validator (activation_in row) desk.old desk.new (output reply report.new) result }
{
    if let Some(answer) = activation_refusal(&desk.tables, &desk.pending, row) {
        return answer;
    }
    report.notify(notice(&desk.tables, row));
    desk.tables.ask(row);
    Answer::plain(Status::SUCCESS)
}

/// The ground asks that the load of the table of this name goes active, and its owner is notified (`CFE_TBL_ACTIVATE_CC`; cFE User's
/// Guide, Table Services, "Activating tables").
pub fn activate<C: Validator>(
    desk: &mut Desk<C>,
    reply: &mut Reply,
    report: &mut Report,
    name: &Name40,
) -> Result<Answer, Memory>
    requires orderly { IsOrderly C.Validator desk.old }
    requires empty { IsEmpty (output reply.old report.old) }
    ensures served { Served C.Validator (activation name.now) desk.old desk.new (output reply.new report.new) result }
{
    let Some(table) = subject(&desk.tables, name) else {
        return Ok(Answer::plain(Status::ERR_NO_SUCH_TABLE));
    };
    take_notice_room(&desk.tables, reply, table.row)?;
    let answer = request_activation(desk, report, table.row);
    report.name_table(table);
    Ok(answer)
}

// ---- what owners do

/// Why the load of the table of a row doesn't go active, if it doesn't.
fn update_refusal(tables: &Tables, row: u8) -> Option<Answer>
    ensures { ForSome (table_at tables.now row) (λ t. result ≡ update_refusal tables.now row t) }
{
    let table = tables.row(row)?;
    if !table.asked {
        return Some(Answer::plain(Status::INFO_NO_UPDATE_PENDING));
    }
    match tables.locker(row) {
        Some(handle) => Some(Answer {
            status: Status::INFO_TABLE_LOCKED,
            detail: u32::from(handle),
        }),
        None => None,
    }
}

/// Makes the load of the table of a row active at the service's time and reports it, unless something is in its way, which it gives.
pub(crate) fn take_update<C: Validator>(
    desk: &mut Desk<C>,
    report: &mut Report,
    row: u8,
) -> Option<Answer>
    requires table { IsSome (table_at desk.old.tables row) }
    requires load { ForSome (table_at desk.old.tables row) HasItsLoad }
    requires few { ForSome (table_at desk.old.tables row) (λ t. t.count < 2 ^ 32 - 1) }
    requires events { length report.old.events < most_events }
    ensures { Updates row result desk.old desk.new report.old report.new }
{
    if let Some(answer) = update_refusal(&desk.tables, row) {
        return Some(answer);
    }
    // The event counts the image that is to go active, so it is made before the update.
    report.add_event(activated(&desk.tables, row));
    desk.tables.activate(row);
    desk.tables
        .set_time(row, desk.clock.seconds, desk.clock.sub);
    None
}

/// The room for the packets of an update of the table in the row.
pub(crate) fn update_room(tables: &Tables, row: u8) -> usize
    requires { IsSome (table_at tables.now row) }
    ensures room { ForSome (table_at tables.now row) (λ t. result ≡ update_room t) }
    ensures few { result ≤ 48 }
{
    let Some(table) = tables.row(row) else {
        unreachable!();
    };
    copy_room(tables, row) + event_room(table.asked)
}

/// The owner of the table in the row makes its load active, if the ground asked for it (`CFE_TBL_Update`).
/// `INFO_NO_UPDATE_PENDING`: the ground didn't. `INFO_TABLE_LOCKED`: the detail is the handle that is in the way.
pub fn update<C: Validator>(
    desk: &mut Desk<C>,
    reply: &mut Reply,
    report: &mut Report,
    row: u8,
) -> Result<Answer, Memory>
    requires table { IsSome (table_at desk.old.tables row) }
    requires orderly { IsOrderly C.Validator desk.old }
    requires empty { IsEmpty (output reply.old report.old) }
    ensures served { Served C.Validator (update_in row) desk.old desk.new (output reply.new report.new) result }
{
    reply.packets.reserve(update_room(&desk.tables, row))?;
    let table = named(&desk.tables, row);
    if let Some(answer) = take_update(desk, report, row) {
        return Ok(answer);
    }
    report.name_table(table);
    Ok(Answer::plain(Status::SUCCESS))
}

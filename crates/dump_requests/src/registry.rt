//! What the registry says of a table, to an application or to the ground.

ghost use Rattle.std.specs.Prelude.{◌≡◌, [], IsSome, IfOk};
ghost use Rattle.tbl_model.specs.State.{State};
ghost use Rattle.tbl_model.specs.Tables.{table_at};
ghost use Rattle.tbl_model.specs.Sharing.{info_effect, send_registry_effect};
ghost use Rattle.request_effects.specs.Effects.{IsEffect, IsQuiet, quiet_effect};
ghost use Rattle.desk.specs.Desk.{IsEmpty, output};
ghost use Rattle.desk.specs.Requests.{Served, command};
ghost use Rattle.dump_requests.specs.Registry.{record_packet};

use desk::{Desk, EVENT_LENGTH};
use request_effects::{Report, subject};
use sharing::Apps;
use tbl_kinds::{Answer, Bytes, Memory, Name40, Reply, Status};
use tbl_model::Shown;
use tbl_outside::Validator;
use tbl_registry::Tables;

/// The length of a registry packet.
const REGISTRY_LENGTH: usize = 156;

/// An application asks for the registry record of a table (`CFE_TBL_GetInfo`).
#[inline(never)]
pub fn get_info(
    tables: &mut Tables,
    apps: &Apps,
    app: u8,
    name: &Name40,
    bytes: &mut Bytes,
) -> Result<Answer, Memory>
    requires { bytes.old.list ≡ [] }
    ensures effect { IfOk result (λ answer. (s : State) → s.tables ≡ tables.old → s.apps ≡ apps.now → IsEffect (quiet_effect answer bytes.new.list) [] s (info_effect s app name.now)) }
    ensures quiet { IfOk result (λ answer. IsQuiet (quiet_effect answer bytes.new.list)) }
    ensures same { tables.new ≡ tables.old }
{
    match sharing::row_of(tables, apps, app, name) {
        Ok(row) => {
            let _ = tables.keep_check_word(row, true);
            *bytes = Bytes::of(bytes.allocator(), &tables.record(row))?;
            Ok(Answer::plain(Status::SUCCESS))
        }
        Err(status) => Ok(Answer::plain(status)),
    }
}

/// The packet after the events has the record of the table of a row.
fn show_record<C: Validator>(
    desk: &mut Desk<C>,
    reply: &mut Reply,
    report: &mut Report,
    row: u8,
) -> Result<Answer, Memory>
    requires table { IsSome (table_at desk.old.tables row) }
    requires empty { IsEmpty (output reply.old report.old) }
    ensures served { Served C.Validator (record_packet row) desk.old desk.new (output reply.new report.new) result }
{
    reply.packets.reserve(EVENT_LENGTH + REGISTRY_LENGTH)?;
    let _ = desk.tables.keep_check_word(row, true);
    report.show(Shown::Registry { row });
    Ok(Answer::plain(Status::SUCCESS))
}

/// The ground asks for the registry packet of the table of this name (`CFE_TBL_SEND_REGISTRY_CC`).
pub fn send_registry<C: Validator>(
    desk: &mut Desk<C>,
    reply: &mut Reply,
    report: &mut Report,
    name: &Name40,
) -> Result<Answer, Memory>
    requires empty { IsEmpty (output reply.old report.old) }
    ensures served { Served C.Validator (command (λ s. send_registry_effect s name.now) 0) desk.old desk.new (output reply.new report.new) result }
{
    let Some(table) = subject(&desk.tables, name) else {
        return Ok(Answer::plain(Status::ERR_NO_SUCH_TABLE));
    };
    let answer = show_record(desk, reply, report, table.row)?;
    report.name_table(table);
    Ok(answer)
}

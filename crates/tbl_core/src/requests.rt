//! Requests about tables, which work on the desk alone: one match for the commands, and one for what the owner of a table asks that can make
//! an image active.

ghost use Rattle.std.specs.Prelude.{◌≡◌, true, false, Some, Ok, IsSome, OnOk};
ghost use Rattle.tbl_model.specs.Tables.{table_at};
ghost use Rattle.request_effects.specs.Requests.{asks_delete};
ghost use Rattle.cmd_packets.specs.Views.{command_of};
ghost use Rattle.desk.specs.Desk.{IsOrderly, IsEmpty, output};
ghost use Rattle.desk.specs.Requests.{Served};
ghost use Rattle.tbl_core.specs.Requests.{activates};
ghost use Rattle.tbl_core.specs.Owned.{commanded, owned};

use cmd_packets::Ground;
use desk::Desk;
use dump_requests::{DumpCommand, dump, dump_registry, housekeeping, send_registry};
use load_requests::{abort, load, load_file, load_image};
use request_effects::Report;
use tbl_kinds::{Answer, Memory, Reply, Request, Status};
use tbl_outside::Validator;
use update_requests::{activate, manage, update, validate};

/// Does what a command asks that calls nothing of the store, as it was read from its packet.
pub(crate) fn commanded<C: Validator>(
    desk: &mut Desk<C>,
    reply: &mut Reply,
    report: &mut Report,
    command: &Ground,
) -> Result<Answer, Memory>
    requires no_call { asks_delete (Some (Ok (command_of command.now))) ≡ false }
    requires orderly { IsOrderly C.Validator desk.old }
    requires empty { IsEmpty (output reply.old report.old) }
    ensures served { Served C.Validator (commanded (command_of command.now)) desk.old desk.new (output reply.new report.new) result }
{
    match command {
        Ground::Noop | Ground::ResetCounters => Ok(Answer::plain(Status::SUCCESS)),
        Ground::Load { file } => load(desk, reply, report, file),
        Ground::Abort { table } => Ok(abort(desk, report, table)),
        Ground::Validate { select, table } => validate(desk, reply, report, *select, table),
        Ground::Activate { table } => activate(desk, reply, report, table),
        Ground::Dump {
            select,
            table,
            file,
        } => {
            let asked = DumpCommand {
                select: *select,
                table: table.copy(),
                file: file.copy(),
            };
            dump(desk, reply, report, &asked)
        }
        Ground::DumpRegistry { file } => dump_registry(desk, reply, report, file),
        Ground::SendRegistry { table } => send_registry(desk, reply, report, table),
        Ground::Housekeeping => housekeeping(desk, reply, report),
        Ground::DeleteCds { .. } => unreachable!(),
    }
}

/// Does what the owner of the table of a row asks for it, which can make an image active.
pub(crate) fn owned<C: Validator>(
    desk: &mut Desk<C>,
    reply: &mut Reply,
    report: &mut Report,
    row: u8,
    request: &mut Request,
) -> Result<Answer, Memory>
    requires activates { activates request.old ≡ true }
    requires table { IsSome (table_at desk.old.tables row) }
    requires orderly { IsOrderly C.Validator desk.old }
    requires empty { IsEmpty (output reply.old report.old) }
    ensures served { Served C.Validator (owned row request.old) desk.old desk.new (output reply.new report.new) result }
    ensures request { OnOk result (request.new ≡ request.old) }
{
    match request {
        Request::LoadImage { image, .. } => load_image(desk, reply, report, row, image),
        Request::LoadFile { name, .. } => load_file(desk, reply, report, row, name.name()),
        Request::Update { .. } => update(desk, reply, report, row),
        Request::Manage { .. } => manage(desk, reply, report, row),
        _ => unreachable!(),
    }
}

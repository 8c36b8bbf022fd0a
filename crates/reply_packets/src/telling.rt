//! What a request did is reported by its packets, and counted as they are put.

ghost use Rattle.std.specs.Prelude.{◌≡◌, ◌≤◌, [], length, Some, None, is_some, IfSome, false};
ghost use Rattle.tbl_kinds.specs.declared.request.Request.{Request as Asked};
ghost use Rattle.tbl_model.specs.Commands.{read_command_in, file_of_load};
ghost use Rattle.tbl_model.specs.Counts.{is_reset, asks_load, load_file_of};
ghost use Rattle.tbl_model.specs.Fit.{HasCode};
ghost use Rattle.request_effects.specs.Requests.{read_of};
ghost use Rattle.request_effects.specs.Effects.{HasRoom, told_effect, reply_limit};
ghost use Rattle.reply_packets.specs.Counters.{counts_view, counted_answer};
ghost use Rattle.reply_packets.specs.Telling.{TellsAt, reported};

use crate::counters::Counters;
use crate::events::{put_command, put_events};
use crate::packets::{put_notice, put_shown};
use cmd_packets::Ground;
use request_effects::{Clock, ReadCommand, Report};
use tbl_kinds::{Answer, Bytes, Request, Status};
use tbl_model::Named;
use tbl_registry::Tables;

/// Counts the load that a command asked for, if it did and was accepted.
fn count_commanded(
    counters: &mut Counters,
    command: &ReadCommand,
    status: Status,
    table: &Option<Named>,
)
    ensures { let read = Some (read_of command.now) in
        counts_view counters.new ≡ counted_answer status (is_some (file_of_load read)) (file_of_load read) table.now (counts_view counters.old) }
{
    match command {
        Ok(Ground::Load { file }) if status == Status::SUCCESS => {
            counters.count_load(table, Some(file));
        }
        _ => {}
    }
}

/// And that of a call.
fn count_called(counters: &mut Counters, request: &Request, status: Status, table: &Option<Named>)
    ensures { counts_view counters.new ≡ counted_answer status (asks_load request.now None) (load_file_of request.now None) table.now (counts_view counters.old) }
{
    if status != Status::SUCCESS {
        return;
    }
    match request {
        Request::LoadImage { .. } => counters.count_load(table, None),
        Request::LoadFile { name, .. } => counters.count_load(table, Some(name.name())),
        _ => {}
    }
}

/// Reports what a command did that was read so and answered so, and counts it. A stop inside it isn't reported: nothing was sent then, and
/// the service began again. Telemetry reports neither the reply's bytes nor the note.
pub fn tell_command(
    packets: &mut Bytes,
    clock: Clock,
    counters: &mut Counters,
    tables: &Tables,
    command: &ReadCommand,
    answer: Answer,
    report: &Report,
)
    requires few { length report.now.events ≤ 8 }
    requires code { IfSome report.now.notice HasCode }
    requires room { HasRoom 24 packets.old (told_effect answer [] report.now) }
    ensures tells { (request : Asked) → read_command_in request ≡ Some (read_of command.now)
        → TellsAt clock tables.now (reported answer report.now) request (counts_view counters.old) (counts_view counters.new) packets.new.list }
    ensures len { length packets.new.list ≤ reply_limit }
{
    if answer.status == Status::INFO_STOPPED {
        counters.begin_anew();
        return;
    }
    put_command(packets, clock, counters, command, answer, &report.table);
    put_events(packets, clock, counters, report.events());
    counters.count_command(command, answer.status);
    count_commanded(counters, command, answer.status, &report.table);
    put_shown(packets, clock, counters, tables, report.shown);
    put_notice(packets, counters, report.notice);
}

/// Reports what a call did that was answered so, and counts it. A stop inside it isn't reported: nothing was sent then, and the service
/// began again.
pub fn tell_call(
    packets: &mut Bytes,
    clock: Clock,
    counters: &mut Counters,
    tables: &Tables,
    request: &Request,
    answer: Answer,
    report: &Report,
)
    requires call { read_command_in request.now ≡ None }
    requires no_reset { is_reset request.now ≡ false }
    requires few { length report.now.events ≤ 8 }
    requires code { IfSome report.now.notice HasCode }
    requires room { HasRoom 0 packets.old (told_effect answer [] report.now) }
    ensures tells { TellsAt clock tables.now (reported answer report.now) request.now (counts_view counters.old) (counts_view counters.new) packets.new.list }
    ensures len { length packets.new.list ≤ reply_limit }
{
    if answer.status == Status::INFO_STOPPED {
        counters.begin_anew();
        return;
    }
    put_events(packets, clock, counters, report.events());
    count_called(counters, request, answer.status, &report.table);
    put_shown(packets, clock, counters, tables, report.shown);
    put_notice(packets, counters, report.notice);
}

//! The event packets of a request: that of a command, and one for each event of what was done.

ghost use Rattle.std.specs.Prelude.{◌≡◌, ◌*◌, ◌<◌, ◌≤◌, [], ◌∷◌, ◌&&◌, map, length, false, Some};
ghost use Rattle.tbl_kinds.specs.Statuses.{is_success};
ghost use Rattle.tbl_model.specs.Commands.{asks_housekeeping};
ghost use Rattle.tbl_model.specs.Telemetry.{is_good};
ghost use Rattle.tbl_model.specs.Events.{row_field, verdict_event, sent_event};
ghost use Rattle.tbl_model.specs.Replies.{head_at, event_packets};
ghost use Rattle.request_effects.specs.Requests.{read_of};
ghost use Rattle.reply_packets.specs.Counters.{counted_events, answered_events};
ghost use Rattle.reply_packets.specs.Puts.{Puts, PutsEvents};

use crate::counters::{Counters, SEQUENCE_COUNTS};
use cmd_packets::Ground;
use request_effects::{Clock, ReadCommand, code_of};
use tbl_kinds::{Answer, Bytes, Event, Status, TlmHead};
use tbl_model::{Named, TelemetryEvent};
use tlm_packets::write_event;

/// The row field of an event that is about no table.
const NO_ROW: u16 = 0xFFFF;

/// The row field of an event.
fn row_field(row: Option<u8>) -> u16
    ensures { result ≡ row_field row }
{
    match row {
        Some(row) => u16::from(row),
        None => NO_ROW,
    }
}

pub(crate) fn is_good(verdict: i32) -> bool
    ensures { result ≡ is_good verdict }
{
    verdict.cast_unsigned() == 0
}

/// Event 3: a verdict came.
fn verdict_event(row: u8, verdict: i32) -> Event
    ensures { result ≡ verdict_event row verdict }
{
    let status = if is_good(verdict) {
        Status::SUCCESS
    } else {
        Status::ERR_VALIDATION_FAILED
    };
    Event {
        number: 3,
        status,
        row: u16::from(row),
        detail: verdict.cast_unsigned(),
    }
}

/// The packet that is sent for an event.
fn sent_event(event: &TelemetryEvent) -> Event
    ensures { result ≡ sent_event event.now }
{
    let (number, status, row, detail) = match event {
        TelemetryEvent::Finished { row, verdict, .. } | TelemetryEvent::Judged { row, verdict } => {
            return verdict_event(*row, *verdict);
        }
        TelemetryEvent::Activated { row, count, .. } => (
            5,
            Status::SUCCESS,
            u16::from(*row),
            *count,
        ),
        TelemetryEvent::CopyFailed { row, slot } => (
            6,
            Status::ERR_CDS_FAULT,
            u16::from(*row),
            u32::from(*slot),
        ),
        TelemetryEvent::Dumped { row, len, .. } => (7, Status::SUCCESS, row_field(*row), *len),
        TelemetryEvent::NotDumped { row } => (8, Status::ERR_DRAWER_FULL, u16::from(*row), 0),
    };
    Event {
        number,
        status,
        row,
        detail,
    }
}

/// The event of a command itself: 1 if it was accepted, 2 if it was refused.
fn command_event(command: &ReadCommand, answer: Answer, table: &Option<Named>) -> Event
    ensures { (is_success answer.status && asks_housekeeping (Some (read_of command.now))) ≡ false
        → answered_events (read_of command.now) answer table.now ≡ result ∷ [] }
{
    let row = match table {
        Some(table) => u16::from(table.row),
        None => NO_ROW,
    };
    if answer.status != Status::SUCCESS {
        return Event {
            number: 2,
            status: answer.status,
            row,
            detail: answer.detail,
        };
    }
    let code = match command {
        Ok(command) => code_of(command),
        Err(_) => 0,
    };
    Event {
        number: 1,
        status: Status::SUCCESS,
        row,
        detail: u32::from(code),
    }
}

/// Whether a command asks for housekeeping.
fn asks_housekeeping(command: &ReadCommand) -> bool
    ensures { result ≡ asks_housekeeping (Some (read_of command.now)) }
{
    matches!(command, Ok(Ground::Housekeeping))
}

/// The head of a packet before which so many of its kind were sent.
pub(crate) fn head_at(clock: Clock, sent: u16) -> TlmHead
    ensures head { result ≡ head_at clock.seconds clock.sub sent }
    ensures count { result.count < 16384 }
{
    TlmHead {
        count: sent % SEQUENCE_COUNTS,
        seconds: clock.seconds,
        sub: clock.sub,
    }
}

/// Appends an event packet, and counts it.
fn put_event(packets: &mut Bytes, clock: Clock, counters: &mut Counters, event: &Event)
    requires { 24 ≤ packets.old.spare }
    ensures { PutsEvents clock (event.now ∷ []) packets.old packets.new counters.old counters.new }
{
    let head = head_at(clock, counters.events);
    counters.events = (counters.events + 1) % SEQUENCE_COUNTS;
    write_event(packets, &head, event);
}

/// Appends the event of a command itself, and counts it. A housekeeping request that was accepted has none, since its packet
/// answers for it.
pub(crate) fn put_command(
    packets: &mut Bytes,
    clock: Clock,
    counters: &mut Counters,
    command: &ReadCommand,
    answer: Answer,
    table: &Option<Named>,
)
    requires { 24 ≤ packets.old.spare }
    ensures { PutsEvents clock (answered_events (read_of command.now) answer table.now) packets.old packets.new counters.old counters.new }
{
    if answer.status == Status::SUCCESS && asks_housekeeping(command) {
        return;
    }
    let event = command_event(command, answer, table);
    put_event(packets, clock, counters, &event);
}

/// Appends a packet for each of these events, and counts them.
pub(crate) fn put_events(
    packets: &mut Bytes,
    clock: Clock,
    counters: &mut Counters,
    events: &[TelemetryEvent],
)
    requires room { 24 * length events.now ≤ packets.old.spare }
    ensures { Puts (event_packets clock.seconds clock.sub counters.old.events (map sent_event events.now)) (24 * length events.now)
        (counted_events clock.seconds clock.sub events.now) packets.old packets.new counters.old counters.new }
{
    for event in events {
        put_event(packets, clock, counters, &sent_event(event));
        counters.count_event(clock, event);
    }
}

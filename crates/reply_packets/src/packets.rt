//! The packets after the events: housekeeping, a table's registry packet, a notice.

ghost use Rattle.std.specs.Prelude.{◌≡◌, ◌≤◌, count_by, is_none, IfSome};
ghost use Rattle.tbl_model.specs.Tables.{free_buffers};
ghost use Rattle.tbl_model.specs.Replies.{housekeeping_of, notice_packet};
ghost use Rattle.tbl_model.specs.Fit.{HasCode};
ghost use Rattle.reply_packets.specs.Counters.{counts_view, sent_notice};
ghost use Rattle.reply_packets.specs.Puts.{Puts, PutsShown};
ghost use Rattle.request_effects.specs.Effects.{shown_len, notice_len};

use crate::counters::Counters;
use crate::events::head_at;
use request_effects::Clock;
use tbl_kinds::{Bytes, Housekeeping};
use tbl_model::{Notice, Shown};
use tbl_registry::Tables;
use tlm_packets::{write_housekeeping, write_notice, write_registry_front};

/// How many of the four buffers no row uses.
fn free_in(rows: &[Option<u8>; 4]) -> usize
    ensures { result ≡ count_by is_none rows.now }
{
    rows.iter().filter(|row| row.is_none()).count()
}

/// How many of the shared working buffers are free.
fn free_buffers(tables: &Tables) -> u8
    ensures { result ≡ free_buffers tables.now }
{
    free_in(&tables.in_use()) as u8
}

/// The body of a housekeeping packet.
fn housekeeping(counters: &Counters, tables: &Tables) -> Housekeeping
    ensures { result ≡ housekeeping_of (counts_view counters.now) tables.now }
{
    Housekeeping {
        accepted: counters.accepted,
        refused: counters.refused,
        tables: tables.count(),
        loads: tables.load_count(),
        finished: counters.finished,
        check: u32::from(counters.validation.check),
        verdict: counters.validation.verdict,
        active: counters.validation.active,
        good: counters.good,
        bad: counters.bad,
        requests: counters.requests,
        free: free_buffers(tables),
        seconds: counters.update.seconds,
        sub: counters.update.sub,
        validated: counters.validation.name.copy(),
        updated: counters.update.name.copy(),
        loaded_file: counters.loaded_file.copy(),
        dumped_file: counters.dumped_file.copy(),
        loaded: counters.loaded.copy(),
    }
}

/// Appends a housekeeping packet, and counts it. It isn't inlined, since whoever calls it would clear the memory of its fields
/// for each request.
#[inline(never)]
fn put_housekeeping(packets: &mut Bytes, clock: Clock, counters: &mut Counters, tables: &Tables)
    requires room { 290 ≤ packets.old.spare }
    ensures { PutsShown clock tables.now Shown.Housekeeping packets.old packets.new counters.old counters.new }
{
    let head = head_at(clock, counters.next_housekeeping());
    write_housekeeping(packets, &head, &housekeeping(counters, tables));
}

/// Appends the registry packet of the table of a row, and counts it.
#[inline(never)]
fn put_registry(
    packets: &mut Bytes,
    clock: Clock,
    counters: &mut Counters,
    tables: &Tables,
    row: u8,
)
    requires room { 156 ≤ packets.old.spare }
    ensures { PutsShown clock tables.now (Shown.Registry row) packets.old packets.new counters.old counters.new }
{
    let head = head_at(clock, counters.next_registry());
    if tables.name(row).is_none() {
        return;
    }
    write_registry_front(packets, &head);
    tables.write_info(row, packets);
}

/// Appends the packet after the events, and counts it.
pub(crate) fn put_shown(
    packets: &mut Bytes,
    clock: Clock,
    counters: &mut Counters,
    tables: &Tables,
    shown: Shown,
)
    requires room { shown_len shown ≤ packets.old.spare }
    ensures { PutsShown clock tables.now shown packets.old packets.new counters.old counters.new }
{
    match shown {
        Shown::Nothing => {}
        Shown::Housekeeping => put_housekeeping(packets, clock, counters, tables),
        Shown::Registry { row } => put_registry(packets, clock, counters, tables, row),
    }
}

/// Appends a notice, and counts it.
pub(crate) fn put_notice(packets: &mut Bytes, counters: &mut Counters, notice: Option<Notice>)
    requires code { IfSome notice HasCode }
    requires room { notice_len notice ≤ packets.old.spare }
    ensures { Puts (notice_packet (counts_view counters.old) notice) (notice_len notice) (sent_notice notice) packets.old packets.new counters.old counters.new }
{
    if let Some(notice) = notice {
        let sent = counters.next_notice();
        write_notice(packets, sent, notice.msg, notice.code, notice.parameter);
    }
}

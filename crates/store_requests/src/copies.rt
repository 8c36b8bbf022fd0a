//! Images of critical tables that go active, which are copied into their blocks.

ghost use Rattle.std.specs.Prelude.{◌≡◌, ◌-◌, ◌≤◌, length, true, Some, Err, OnOk, slice_get};
ghost use Rattle.tbl_kinds.specs.Notes.{untouched};
ghost use Rattle.tbl_model.specs.State.{Table};
ghost use Rattle.tbl_model.specs.Tables.{table_at, is_critical_in};
ghost use Rattle.tbl_model.specs.Copies.{is_activation, block_of, copied_to, then_copy};
ghost use Rattle.desk.specs.Rooms.{copy_room as room_for_copy};
ghost use Rattle.store_requests.specs.Called.{broken_note};
ghost use Rattle.store_requests.specs.Copying.{IsCopied, Copied, KeepsRoom, told_in};

use crate::notes::{note_broken, note_room};
use crate::table_blocks::sized_block;
use bitflags::Flags;
use cds_store::{BankFault, Store};
use check_word::Checked;
use request_effects::Report;
use std::alloc::Global;
use std::marker::Model;
use tbl_kinds::{Memory, Name40, Note, Options, Outside, Reply, Status};
use tbl_model::TelemetryEvent;
use tbl_outside::Bank;
use tbl_registry::Tables;

/// Memory for the note of a copy that fails, which is kept from request to request.
#[derive(Drop)]
pub struct CopyRoom {
    outside: Option<Box<Outside>>,
}

impl Model for CopyRoom {
    ghost use Rattle.std.specs.Prelude.{Bool, is_some, IfSome};
    ghost use Rattle.store_requests.specs.Called.{IsFresh};

    ghost Value = { Bool };

    ghost view = { λ r. is_some r.outside };

    ghost invariant = { λ r. IfSome r.outside IsFresh };
}

impl CopyRoom {
    /// No memory was taken yet.
    pub fn none() -> CopyRoom {
        CopyRoom { outside: None }
    }
}

/// Whether the table of a row is critical.
fn is_critical(tables: &Tables, row: u8) -> bool
    ensures { result ≡ is_critical_in (table_at tables.now row) }
{
    match tables.row(row) {
        Some(table) => table.flags.contains(Options::CRITICAL),
        None => false,
    }
}

/// If the table of a row is critical, what its copy may need of memory is there after this: it is taken before anything changes, since an
/// image that went active stays active, so running out of memory after that couldn't be answered.
pub fn copy_room(alloc: Global, tables: &Tables, row: u8, room: &mut CopyRoom) -> Result<(), Memory>
    ensures room { OnOk result (is_critical_in (table_at tables.now row) ≡ true → room.new ≡ true) }
{
    if is_critical(tables, row) && room.outside.is_none() {
        room.outside = Some(note_room(alloc)?);
    }
    Ok(())
}

/// Whether an image went active: this is the last thing that was done.
fn went_active(events: &[TelemetryEvent]) -> bool
    ensures { result ≡ is_activation (slice_get events.now (length events.now - 1)) }
{
    matches!(events.last(), Some(TelemetryEvent::Activated { .. }))
}

// ---- how a copy ended

/// The copy into the block of a slot was broken off. If the bank failed, that is reported after what was done, as the image is active all
/// the same. If it was stopped, only what was done is reported of the request, since the processor was reset before it could answer.
fn broken_off(row: u8, slot: u8, fault: BankFault, reply: &mut Reply, report: &mut Report)
    requires few { length report.old.events ≤ 3 }
    ensures copied { IsCopied row slot (Err fault) (told_in reply.old report.old untouched) (told_in reply.new report.new (broken_note fault untouched)) }
    ensures packets { reply.new.packets ≡ reply.old.packets }
{
    match fault {
        BankFault::Fault { .. } => {
            report.add_event(TelemetryEvent::CopyFailed { row, slot });
        }
        BankFault::Stopped { .. } => {
            reply.status = Status::INFO_STOPPED;
            reply.detail = 0;
            reply.bytes.clear();
            report.cut_off();
        }
    }
}

/// The copy into the block of a slot ended so.
fn copied(
    row: u8,
    slot: u8,
    ended: Result<(), BankFault>,
    room: &mut CopyRoom,
    reply: &mut Reply,
    report: &mut Report,
) -> Note
    requires room { room.old ≡ true }
    requires few { length report.old.events ≤ 3 }
    ensures copied { IsCopied row slot ended (told_in reply.old report.old untouched) (told_in reply.new report.new result) }
    ensures packets { reply.new.packets ≡ reply.old.packets }
{
    match ended {
        Ok(()) => Note::done(1),
        Err(fault) => {
            let Some(mut outside) = room.outside.take() else {
                unreachable!();
            };
            note_broken(&mut outside, fault);
            broken_off(row, slot, fault, reply, report);
            Note::of(outside)
        }
    }
}

// ---- the copy

/// Copies an image into the block of the table of this name, if it has one of that size. The bytes go from the table's image
/// into the bank.
fn copy_image<B: Bank>(
    store: &mut Store<B>,
    row: u8,
    name: &Name40,
    image: &Checked<'_>,
    room: &mut CopyRoom,
    reply: &mut Reply,
    report: &mut Report,
) -> Note
    requires booted { store.old.booted ≡ true }
    requires room { room.old ≡ true }
    requires few { length report.old.events ≤ 3 }
    ensures copied { (t : Table) → Copied B.Bank store.old store.new (told_in reply.old report.old untouched) (told_in reply.new report.new result)
        (λ e. (t.name ≡ name.now) × (t.size ≡ length image.now)) (λ e n. copied_to row n e (block_of t e.next.store) (Some image.now)) }
    ensures room { KeepsRoom 24 (told_in reply.old report.old untouched) (told_in reply.new report.new result) }
    ensures packets { reply.new.packets ≡ reply.old.packets }
{
    let Some(slot) = sized_block(store, name, image.bytes().len()) else {
        return Note::untouched();
    };
    let ended = store.copy(slot, image);
    copied(row, slot, ended, room, reply, report)
}

/// Copies the image of the table of a row that went active by this request, if one did and the table is critical. The copy comes
/// last, so that an image is never kept that didn't go active. The note says how it went.
pub fn then_copy<B: Bank>(
    tables: &mut Tables,
    store: &mut Store<B>,
    row: u8,
    room: &mut CopyRoom,
    reply: &mut Reply,
    report: &mut Report,
) -> Note
    requires booted { store.old.booted ≡ true }
    requires room { is_critical_in (table_at tables.old row) ≡ true → room.old ≡ true }
    requires few { length report.old.events ≤ 3 }
    ensures copied { Copied B.Bank store.old store.new (told_in reply.old report.old untouched) (told_in reply.new report.new result)
        (λ e. e.next.tables ≡ tables.old) (λ e n. then_copy row n e) }
    ensures room { KeepsRoom (room_for_copy (table_at tables.old row)) (told_in reply.old report.old untouched) (told_in reply.new report.new result) }
    ensures packets { reply.new.packets ≡ reply.old.packets }
    ensures same { tables.new ≡ tables.old }
{
    if !went_active(report.events()) {
        return Note::untouched();
    }
    if !is_critical(tables, row) {
        return Note::untouched();
    }
    let _ = tables.keep_check_word(row, true);
    let Some(name) = tables.name(row) else {
        return Note::untouched();
    };
    let Some(image) = tables.last_checked(row) else {
        return Note::untouched();
    };
    copy_image(store, row, name, &image, room, reply, report)
}

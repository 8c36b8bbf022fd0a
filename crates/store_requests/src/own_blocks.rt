//! An application's own blocks of the Critical Data Store: copied into, restored and deleted.

ghost use Rattle.std.specs.Prelude.{◌≡◌, ◌≤◌, is_some, true, length, IfSome, IfOk};
ghost use Rattle.tbl_model.specs.AppBlocks.{is_named_by, cds_copy_effect, cds_restore_effect, cds_delete_effect};
ghost use Rattle.cds_store.specs.Sound.{slot_at, IsOpenOf};
ghost use Rattle.cds_layout.specs.Restores.{words};
ghost use Rattle.store_requests.specs.BankCalls.{asks_copy, asks_delete, asks_restore};
ghost use Rattle.store_requests.specs.OwnBlocks.{OwnBlock, CanGive, copying, restoring};
ghost use Rattle.store_requests.specs.Called.{IsFresh, IsGiven, IsUngiven, is_own_slot};
ghost use Rattle.store_requests.specs.Requests.{Served, MadeAsking, alone, at_desk};

use crate::blocks::delete;
use crate::effect::Effect;
use crate::notes::{RestoreNote, broken, called, note_room, note_torn};
use cds_store::{BankFault, RestoreFault, Store};
use check_word::Checked;
use desk::Desk;
use sharing::Apps;
use std::alloc::Global;
use tbl_kinds::{Answer, BlockKind, Bytes, Memory, Name20, Name40, Outside, Status};
use tbl_outside::{Bank, Validator};

/// An application's own block: its slot, and the size of its image.
#[derive(Clone, Copy)]
struct Own {
    slot: u8,
    size: u32,
}

/// Whether a name begins with an application's and a dot.
fn is_named_by(app_name: &Name20, name: &Name40) -> bool
    ensures { result ≡ is_named_by app_name.now name.now }
{
    let app = app_name.bytes();
    let bytes = name.bytes();
    if !bytes.starts_with(app) {
        return false;
    }
    match bytes.get(app.len()) {
        Some(next) => b'.' == *next,
        None => false,
    }
}

/// The open block of an application in this slot, if its name is one of that application's.
fn find_own<B: Bank>(store: &Store<B>, app_name: &Name20, slot: u16) -> Option<Own>
    ensures slot { IfSome result (λ own. own.slot ≡ slot) }
    ensures sized { IfSome result (λ own. IsOpenOf own.size (slot_at store.now.slots slot)) }
    ensures within { IfSome result (λ own. own.size ≤ 16384) }
    ensures own { is_some result ≡ is_own_slot app_name.now (slot_at store.now.slots slot) }
{
    let slot = store.open_in(slot)?;
    let block = store.block(slot)?;
    if block.kind != BlockKind::App || !is_named_by(app_name, &block.name) {
        return None;
    }
    Some(Own {
        slot,
        size: block.size,
    })
}

/// The application's own block in this slot, or why there is none.
fn own_block<B: Bank>(store: &Store<B>, apps: &Apps, app: u8, slot: u16) -> Result<Own, Status>
    ensures { OwnBlock B.Bank store.now apps.now app slot result }
{
    let Some(app_name) = apps.name(app) else {
        return Err(Status::ERR_BAD_APP);
    };
    match find_own(store, app_name, slot) {
        Some(own) => Ok(own),
        None => Err(Status::ERR_CDS_NOT_FOUND),
    }
}

// ---- a copy

/// Copies an image into a block.
fn copy_into<B: Bank>(
    alloc: Global,
    store: &mut Store<B>,
    own: Own,
    image: &[u8],
) -> Result<Effect, Memory>
    requires booted { store.old.booted ≡ true }
    requires own { IsOpenOf own.size (slot_at store.old.slots own.slot) }
    ensures served { Served B.Bank (alone store.old) (alone store.new) (λ s. copying s own.slot own.size image.now) (asks_copy own.slot image.now) result }
{
    if image.len() != own.size as usize {
        return Ok(Effect::plain(Status::ERR_IMAGE_SIZE));
    }
    let note = note_room(alloc)?;
    let ended = store.copy(own.slot, &Checked::of(image));
    Ok(called(ended, note))
}

/// An application copies an image into a block of its own (`CFE_ES_CopyToCDS`).
pub fn cds_copy<B: Bank, C: Validator>(
    desk: &Desk<C>,
    store: &mut Store<B>,
    app: u8,
    slot: u16,
    image: &[u8],
) -> Result<Effect, Memory>
    requires booted { store.old.booted ≡ true }
    ensures served { Served B.Bank (at_desk desk.now store.old) (at_desk desk.now store.new) (λ s. cds_copy_effect s app slot image.now) (asks_copy slot image.now) result }
{
    match own_block(store, &desk.apps, app, slot) {
        Ok(own) => copy_into(desk.alloc, store, own, image),
        Err(status) => Ok(Effect::plain(status)),
    }
}

// ---- a restore

/// Memory for a restore: for the image, which is the reply, and for the note.
#[derive(Drop)]
struct GiveRoom {
    reply: Bytes,
    note: RestoreNote,
}

impl GiveRoom {
    /// There is room for an image of this size.
    fn make(alloc: Global, size: usize) -> Result<GiveRoom, Memory>
        ensures { IfOk result (CanGive size) }
    {
        Ok(GiveRoom {
            reply: Bytes::make(alloc, size)?,
            note: RestoreNote::make(alloc, size)?,
        })
    }
}

/// The image that a block gave is the reply, and the note has it.
fn given(image: &[u8], room: GiveRoom) -> Effect
    requires { CanGive (length image.now) room }
    ensures { IsGiven result image.now }
{
    let GiveRoom { mut reply, note } = room;
    reply.append(image);
    Effect {
        answer: Answer::plain(Status::SUCCESS),
        bytes: Some(reply),
        note: note.given(image),
    }
}

/// A block gave no image: either it was read and has none, or the bank failed.
fn not_given(fault: RestoreFault, note: Box<Outside>) -> Effect
    requires { IsFresh note }
    ensures { IsUngiven result (words fault) }
{
    match fault.words() {
        Some(words) => {
            let answer = Answer {
                status: Status::ERR_CDS_TORN,
                detail: words,
            };
            Effect::noted(answer, note_torn(note, words))
        }
        None => {
            let fault = BankFault::Fault {
                gate: false,
                old: false,
            };
            broken(fault, note)
        }
    }
}

/// Restores the image of a block into this memory, whose length it has.
fn restore_into<B: Bank>(store: &mut Store<B>, slot: u8, image: &mut [u8], room: GiveRoom) -> Effect
    requires booted { store.old.booted ≡ true }
    requires own { IsOpenOf (length image.old) (slot_at store.old.slots slot) }
    requires within { length image.old ≤ 16384 }
    requires room { CanGive (length image.old) room }
    ensures served { MadeAsking B.Bank (alone store.old) (alone store.new) (λ s. restoring s slot) (asks_restore slot) result }
{
    match store.restore(slot, image) {
        Ok(()) => given(image, room),
        Err(fault) => {
            let note = room.note;
            not_given(fault, note.note)
        }
    }
}

/// An application restores the image of a block of its own (`CFE_ES_RestoreFromCDS`). All memory is taken before, since a read of the bank
/// that failed has to be reported.
pub fn cds_restore<B: Bank, C: Validator>(
    desk: &Desk<C>,
    store: &mut Store<B>,
    app: u8,
    slot: u16,
) -> Result<Effect, Memory>
    requires booted { store.old.booted ≡ true }
    ensures served { Served B.Bank (at_desk desk.now store.old) (at_desk desk.now store.new) (λ s. cds_restore_effect s app slot) (asks_restore slot) result }
{
    let own = match own_block(store, &desk.apps, app, slot) {
        Ok(own) => own,
        Err(status) => return Ok(Effect::plain(status)),
    };
    let size = own.size as usize;
    let mut image = vec![in desk.alloc; 0; size]?;
    let room = GiveRoom::make(desk.alloc, size)?;
    Ok(restore_into(store, own.slot, &mut image, room))
}

/// An application deletes a block of its own (`CFE_ES_DeleteCDS`).
pub fn cds_delete<B: Bank, C: Validator>(
    desk: &Desk<C>,
    store: &mut Store<B>,
    app: u8,
    slot: u16,
) -> Result<Effect, Memory>
    requires booted { store.old.booted ≡ true }
    ensures served { Served B.Bank (at_desk desk.now store.old) (at_desk desk.now store.new) (λ s. cds_delete_effect s app slot) (asks_delete slot) result }
{
    match own_block(store, &desk.apps, app, slot) {
        Ok(own) => delete(desk.alloc, store, own.slot),
        Err(status) => Ok(Effect::plain(status)),
    }
}

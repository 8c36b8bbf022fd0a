//! Blocks of the Critical Data Store: how one is registered, and how one is deleted.

ghost use Rattle.std.specs.Prelude.{◌≡◌, ◌<◌, true, [], None, Some, IsSome};
ghost use Rattle.tbl_kinds.specs.Blocks.{Store as Blocks};
ghost use Rattle.tbl_kinds.specs.StoreSteps.{stored_at, open_of};
ghost use Rattle.tbl_kinds.specs.declared.block.BlockKind.TheVariants as kind;
ghost use Rattle.tbl_model.specs.AppBlocks.{has_size, block_effect, cds_register_effect};
ghost use Rattle.sharing.specs.Apps.{app_name};
ghost use Rattle.cds_store.specs.Slots.{open_slot};
ghost use Rattle.cds_store.specs.Sound.{slot_at};
ghost use Rattle.cds_store.specs.StoreBlocks.{StandsFor};
ghost use Rattle.store_requests.specs.BankCalls.{asks_delete, asks_make, asks_renew, asks_register, asks_register_for};
ghost use Rattle.store_requests.specs.OwnBlocks.{CanReserve, CanRenew, renewing, deleting};
ghost use Rattle.store_requests.specs.Called.{IsFresh, IsTold, reserve_note, reserve_status, reserve_detail};
ghost use Rattle.store_requests.specs.Requests.{Served, MadeAsking, alone, at_desk};

use crate::effect::Effect;
use crate::notes::{broken, called, done, note_done, note_room};
use cds_store::{ReserveFault, Store};
use desk::Desk;
use sharing::plan_name;
use std::alloc::Global;
use tbl_kinds::{Answer, BlockKind, Memory, Name16, Name40, Note, Outside, Status};
use tbl_outside::{Bank, Validator};

/// The largest image of a block, that of a table (`CFE_PLATFORM_TBL_MAX_SNGL_TABLE_SIZE`), in bytes.
const BLOCK_LIMIT: u32 = 16_384;

// ---- a block is registered

/// How a reservation went, which is the last call of its request.
fn reserved(made: Result<u8, ReserveFault>, note: Box<Outside>) -> Effect
    requires { note.value.note.done < 255 }
    ensures { IsTold result (reserve_status made) (reserve_detail made) [] (reserve_note made note.value.note) }
{
    match made {
        Ok(slot) => {
            let answer = Answer {
                status: Status::SUCCESS,
                detail: u32::from(slot),
            };
            done(answer, note)
        }
        Err(ReserveFault::Bank(fault)) => broken(fault, note),
        Err(ReserveFault::NoRoom) => {
            Effect::noted(Answer::plain(Status::ERR_CDS_NO_ROOM), Note::of(note))
        }
    }
}

/// Deletes the block of another size, and reserves one instead. That there is room for it was asked before, since the old block
/// would be gone otherwise.
fn renew<B: Bank>(
    store: &mut Store<B>,
    old: u8,
    name: &Name40,
    size: u32,
    mut note: Box<Outside>,
) -> Effect
    requires booted { store.old.booted ≡ true }
    requires can { CanReserve name.now size }
    requires renewable { CanRenew B.Bank store.old kind.App name.now size old }
    requires fresh { IsFresh note }
    ensures served { MadeAsking B.Bank (alone store.old) (alone store.new) (λ s. renewing s name.now size old) (asks_renew old name.now size) result }
{
    match store.delete_block(old) {
        Ok(()) => {
            note_done(&mut note);
            let made = store.reserve_block(BlockKind::App, name, size);
            reserved(made, note)
        }
        Err(fault) => broken(fault, note),
    }
}

/// Whether the block of a slot has this size.
pub(crate) fn has_size<B: Bank>(store: &Store<B>, slot: u8, size: u32) -> bool
    ensures { (blocks : Blocks) → StandsFor B.tells B.now store.now blocks → result ≡ has_size size (stored_at blocks slot) }
{
    match store.block(slot) {
        Some(block) => block.size == size,
        None => false,
    }
}

/// Registers a block of this full name and size. An open one of this name that has another size is deleted first.
fn register_block<B: Bank>(
    alloc: Global,
    store: &mut Store<B>,
    name: &Name40,
    size: u32,
) -> Result<Effect, Memory>
    requires booted { store.old.booted ≡ true }
    requires can { CanReserve name.now size }
    ensures served { Served B.Bank (alone store.old) (alone store.new) (λ s n. block_effect s name.now size n (open_of kind.App name.now s.store)) (asks_register name.now size) result }
{
    match store.find(BlockKind::App, name) {
        Some(slot) => register_again(alloc, store, slot, name, size),
        None => register_new(alloc, store, name, size),
    }
}

/// Registers a block of this full name that has an open one in this slot.
fn register_again<B: Bank>(
    alloc: Global,
    store: &mut Store<B>,
    slot: u8,
    name: &Name40,
    size: u32,
) -> Result<Effect, Memory>
    requires booted { store.old.booted ≡ true }
    requires can { CanReserve name.now size }
    requires open_block { open_slot kind.App name.now store.old.slots ≡ Some slot }
    requires slot { slot < 128 }
    ensures served { Served B.Bank (alone store.old) (alone store.new) (λ s n. block_effect s name.now size n (Some slot)) (asks_renew slot name.now size) result }
{
    if has_size(store, slot, size) {
        let answer = Answer {
            status: Status::INFO_CDS_EXISTS,
            detail: u32::from(slot),
        };
        return Ok(Effect::of(answer));
    }
    if !store.room(size, Some(slot)) {
        return Ok(Effect::plain(Status::ERR_CDS_NO_ROOM));
    }
    let note = note_room(alloc)?;
    Ok(renew(store, slot, name, size, note))
}

/// Registers a block of this full name that has no open one.
fn register_new<B: Bank>(
    alloc: Global,
    store: &mut Store<B>,
    name: &Name40,
    size: u32,
) -> Result<Effect, Memory>
    requires booted { store.old.booted ≡ true }
    requires can { CanReserve name.now size }
    requires none_open { open_slot kind.App name.now store.old.slots ≡ None }
    ensures served { Served B.Bank (alone store.old) (alone store.new) (λ s n. block_effect s name.now size n None) (asks_make name.now size) result }
{
    let note = note_room(alloc)?;
    let made = store.reserve_block(BlockKind::App, name, size);
    Ok(reserved(made, note))
}

/// An application registers a block of its own (`CFE_ES_RegisterCDS`).
pub fn cds_register<B: Bank, C: Validator>(
    desk: &Desk<C>,
    store: &mut Store<B>,
    app: u8,
    short: &Name16,
    size: u32,
) -> Result<Effect, Memory>
    requires booted { store.old.booted ≡ true }
    ensures served { Served B.Bank (at_desk desk.now store.old) (at_desk desk.now store.new) (λ s. cds_register_effect s app short.now size)
        (asks_register_for (app_name desk.now.apps app) short.now size) result }
{
    let Some(name) = plan_name(&desk.apps, app, short) else {
        return Ok(Effect::plain(Status::ERR_BAD_APP));
    };
    if !short.is_name() {
        return Ok(Effect::plain(Status::ERR_INVALID_NAME));
    }
    if size == 0 || BLOCK_LIMIT < size {
        return Ok(Effect::plain(Status::ERR_INVALID_SIZE));
    }
    register_block(desk.alloc, store, &name, size)
}

// ---- a block is deleted

/// Deletes the block of a slot that is taken. The memory of its note is taken first: what the bank did can't be undone.
pub(crate) fn delete<B: Bank>(
    alloc: Global,
    store: &mut Store<B>,
    slot: u8,
) -> Result<Effect, Memory>
    requires booted { store.old.booted ≡ true }
    requires taken { IsSome (slot_at store.old.slots slot) }
    ensures served { Served B.Bank (alone store.old) (alone store.new) (λ s. deleting s slot) (asks_delete slot) result }
{
    let note = note_room(alloc)?;
    let ended = store.delete_block(slot);
    Ok(called(ended, note))
}

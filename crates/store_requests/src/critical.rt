//! The block of a critical table that is registered: it is found in the Critical Data Store, or made there.

ghost use Rattle.std.specs.Arc.{arc_value};
ghost use Rattle.std.specs.Prelude.{◌≡◌, length, Some, IfSome, IfNone, IfOk, true};
ghost use Rattle.tbl_kinds.specs.declared.block.BlockKind.TheVariants as kind;
ghost use Rattle.cds_store.specs.Promises.{Restores};
ghost use Rattle.cds_store.specs.Sound.{slot_at, IsOpenOf};
ghost use Rattle.sharing.specs.Registering.{next_row, planned, IsPlan};
ghost use Rattle.store_requests.specs.OwnBlocks.{CanRenew};
ghost use Rattle.store_requests.specs.Called.{IsFresh};
ghost use Rattle.store_requests.specs.Registering.{Registers, Registered, books, keeping, making, recovery};

use crate::effect::Effect;
use crate::entering::{lost, reserved, restored};
use crate::notes::{RestoreNote, note_done, note_room};
use crate::table_blocks::sized_block;
use buffer_pairs::Image;
use cds_store::{RestoreFault, Store};
use sharing::register_uncritical;
use std::alloc::Global;
use std::sync::Arc;
use tbl_kinds::{BlockKind, Memory, Outside};
use tbl_outside::Bank;
use tbl_registry::{NewTable, Tables};

// ---- its block is there

/// Room for an image of this size.
fn image_room(alloc: Global, size: u32) -> Result<Arc<Vec<u8>, Global>, Memory>
    ensures { IfOk result (λ room. length (arc_value room).items ≡ size) }
{
    let bytes = vec![in alloc; 0; size as usize]?;
    Ok(Arc::new(alloc, bytes)?)
}

/// Restores the image of a block into its room, in place. None if the room has another owner: then nothing is done.
fn restore_into<B: Bank>(
    store: &mut Store<B>,
    slot: u8,
    room: &mut Arc<Vec<u8>, Global>,
) -> Option<Result<(), RestoreFault>>
    requires booted { store.old.booted ≡ true }
    requires can { IsOpenOf (length (arc_value room.old).items) (slot_at store.old.slots slot) }
    ensures restores { IfSome result (Restores B.Bank store.old store.new slot (length (arc_value room.old).items) (arc_value room.new).items) }
    ensures sized { length (arc_value room.new).items ≡ length (arc_value room.old).items }
    ensures none { IfNone result (store.new ≡ store.old) }
{
    let bytes = Arc::get_mut(room)?;
    Some(store.restore(slot, bytes.as_mut_slice()))
}

/// Registers a critical table whose open block is in this slot and has its size. All memory is taken before its image is restored. That is
/// done in place: the table's image is made of the very bytes that were read.
fn recover<B: Bank>(
    alloc: Global,
    tables: &mut Tables,
    store: &mut Store<B>,
    app: u8,
    slot: u8,
    plan: NewTable,
) -> Result<Effect, Memory>
    requires booted { store.old.booted ≡ true }
    requires plan { IsPlan tables.old plan }
    requires open_block { IsOpenOf plan.size (slot_at store.old.slots slot) }
    ensures registered { Registered B.Bank (books tables.old store.old) (books tables.new store.new) app plan (λ s. recovery s (next_row tables.old) (planned tables.old app plan) slot) result }
{
    let mut room = image_room(alloc, plan.size)?;
    let note = RestoreNote::make(alloc, plan.size as usize)?;
    let Some(ended) = restore_into(store, slot, &mut room) else {
        return Err(Memory);
    };
    let image = Image::from_shared(room);
    Ok(restored(tables, app, plan, ended, image, note))
}

// ---- its block is made

/// Deletes the block of another size, and makes one instead. That there is room for it was asked before, since the old block
/// would be gone otherwise.
fn renew<B: Bank>(
    tables: &mut Tables,
    store: &mut Store<B>,
    app: u8,
    old: u8,
    plan: NewTable,
    mut note: Box<Outside>,
) -> Effect
    requires booted { store.old.booted ≡ true }
    requires plan { IsPlan tables.old plan }
    requires renewable { CanRenew B.Bank store.old kind.Table plan.name plan.size old }
    requires fresh { IsFresh note }
    ensures registers { Registers B.Bank (books tables.old store.old) (books tables.new store.new) app plan (λ s. making s (next_row tables.old) (planned tables.old app plan) (Some old)) result }
{
    match store.delete_block(old) {
        Ok(()) => {
            note_done(&mut note);
            let made = store.reserve_block(BlockKind::Table, &plan.name, plan.size);
            reserved(tables, app, plan, made, note)
        }
        Err(fault) => lost(tables, app, plan, fault, note),
    }
}

/// Registers a critical table: its image is restored from its open block, or a block is made for it, in the place of one of another size.
pub(crate) fn keep<B: Bank>(
    alloc: Global,
    tables: &mut Tables,
    store: &mut Store<B>,
    app: u8,
    plan: NewTable,
) -> Result<Effect, Memory>
    requires booted { store.old.booted ≡ true }
    requires plan { IsPlan tables.old plan }
    ensures registered { Registered B.Bank (books tables.old store.old) (books tables.new store.new) app plan (λ s. keeping s tables.old app plan) result }
{
    if let Some(slot) = sized_block(store, &plan.name, plan.size as usize) {
        return recover(alloc, tables, store, app, slot, plan);
    }
    let Some(slot) = store.find(BlockKind::Table, &plan.name) else {
        let note = note_room(alloc)?;
        let made = store.reserve_block(BlockKind::Table, &plan.name, plan.size);
        return Ok(reserved(tables, app, plan, made, note));
    };
    // Its block has another size.
    if !store.room(plan.size, Some(slot)) {
        return Ok(Effect::of(register_uncritical(tables, app, plan)));
    }
    let note = note_room(alloc)?;
    Ok(renew(tables, store, app, slot, plan, note))
}

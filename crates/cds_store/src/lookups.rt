//! What is asked of the slots: the block of a name, and the room for a new one.

ghost use Rattle.std.specs.Prelude.{◌≡◌, ◌+◌, ◌<◌, ◌≤◌, [], ◌∷◌, ◌++◌, None, length, position, IfSome, is_some, is_none};
ghost use Rattle.std.specs.Option.{option_copied, option_map};
ghost use Rattle.tbl_kinds.specs.Places.{place};
ghost use Rattle.tbl_kinds.specs.StoreSteps.{is_of};
ghost use Rattle.tbl_kinds.specs.Free.{least_free};
ghost use Rattle.cds_store.specs.Slots.{CanFree, is_open_slot, is_doubtful_slot, open_slot, doubtful_slot, without_slot, block_of, blocks_of, has_open, room_in};
ghost use Rattle.cds_store.specs.Sound.{slot_at};

use crate::block_list::BlockList;
use crate::slot::Slot;
use cds_pool::place;
use tbl_kinds::{Block, BlockKind, Name40};

/// Whether a block is of this kind and name.
fn is_of(block: &Block, kind: BlockKind, name: &Name40) -> bool
    ensures { result ≡ is_of kind name.now block.now }
{
    block.kind == kind && block.name.bytes() == name.bytes()
}

/// Whether a slot has an open block of this kind and name.
fn is_open(slot: &Option<Slot>, kind: BlockKind, name: &Name40) -> bool
    ensures { result ≡ is_open_slot kind name.now slot.now }
{
    match slot {
        Some(taken) => is_of(&taken.block, kind, name) && !taken.doubtful,
        None => false,
    }
}

/// Whether it has one in doubt.
fn is_doubtful(slot: &Option<Slot>, kind: BlockKind, name: &Name40) -> bool
    ensures { result ≡ is_doubtful_slot kind name.now slot.now }
{
    match slot {
        Some(taken) => is_of(&taken.block, kind, name) && taken.doubtful,
        None => false,
    }
}

fn position_of_open(slots: &[Option<Slot>], kind: BlockKind, name: &Name40) -> Option<usize>
    ensures slot { result ≡ open_slot kind name.now slots.now }
    ensures within { IfSome result (λ n. n < length slots.now) }
{
    slots.iter().position(|slot| is_open(slot, kind, name))
}

fn position_of_doubtful(slots: &[Option<Slot>], kind: BlockKind, name: &Name40) -> Option<usize>
    ensures slot { result ≡ doubtful_slot kind name.now slots.now }
    ensures within { IfSome result (λ n. n < length slots.now) }
{
    slots.iter().position(|slot| is_doubtful(slot, kind, name))
}

/// The slot of the open block of this kind and name.
pub(crate) fn find_open(slots: &[Option<Slot>], kind: BlockKind, name: &Name40) -> Option<u8>
    requires { length slots.now ≤ 256 }
    ensures slot { result ≡ open_slot kind name.now slots.now }
    ensures within { IfSome result (λ n. n < length slots.now) }
{
    match position_of_open(slots, kind, name) {
        Some(slot) => Some(slot as u8),
        None => None,
    }
}

/// The slot of the doubtful block of this kind and name.
pub(crate) fn find_doubtful(slots: &[Option<Slot>], kind: BlockKind, name: &Name40) -> Option<u8>
    requires { length slots.now ≤ 256 }
    ensures slot { result ≡ doubtful_slot kind name.now slots.now }
    ensures within { IfSome result (λ n. n < length slots.now) }
{
    match position_of_doubtful(slots, kind, name) {
        Some(slot) => Some(slot as u8),
        None => None,
    }
}

fn first_free(slots: &[Option<Slot>]) -> Option<usize>
    ensures slot { result ≡ least_free slots.now }
    ensures within { IfSome result (λ n. n < length slots.now) }
{
    slots.iter().position(|slot| slot.is_none())
}

/// The least free slot, the named one counted as free.
fn free_slot(slots: &[Option<Slot>], without: Option<u8>) -> Option<u8>
    requires { CanFree slots.now without }
    ensures { result ≡ least_free (without_slot without slots.now) }
{
    match without {
        None => match first_free(slots) {
            Some(slot) => Some(slot as u8),
            None => None,
        },
        Some(freed) => match first_free(&slots[..freed as usize]) {
            Some(slot) => Some(slot as u8),
            None => Some(freed),
        },
    }
}

/// The same block once more. It takes no memory.
pub(crate) fn copy_of(block: &Block) -> Block
    ensures { result ≡ block.now }
{
    Block {
        kind: block.kind,
        offset: block.offset,
        size: block.size,
        name: block.name.copy(),
    }
}

/// The block of a slot.
pub(crate) fn block_in(slots: &[Option<Slot>], slot: u8) -> Option<&Block>
    ensures { option_copied result ≡ option_map block_of (slot_at slots.now slot) }
{
    match slots.get(slot as usize) {
        Some(Some(taken)) => Some(&taken.block),
        _ => None,
    }
}

/// The slot of this number, if it has an open block.
pub(crate) fn open_in(slots: &[Option<Slot>], number: u16) -> Option<u8>
    requires { length slots.now ≤ 256 }
    ensures some { IfSome result (λ slot. slot ≡ number) }
    ensures open { is_some result ≡ has_open (slot_at slots.now number) }
{
    match slots.get(number as usize) {
        Some(Some(taken)) if !taken.doubtful => Some(number as u8),
        _ => None,
    }
}

/// Puts the block of a slot last, if it has one.
fn add_block(slot: &Option<Slot>, blocks: &mut BlockList)
    requires { length blocks.old.items < 128 }
    ensures { blocks.new.items ≡ blocks.old.items ++ blocks_of (slot.now ∷ []) }
{
    if let Some(taken) = slot {
        blocks.push(copy_of(&taken.block));
    }
}

/// Puts the blocks of these slots last.
fn add_blocks(slots: &[Option<Slot>], blocks: &mut BlockList)
    requires { length blocks.old.items + length slots.now ≤ 128 }
    ensures { blocks.new.items ≡ blocks.old.items ++ blocks_of slots.now }
{
    for slot in slots {
        add_block(slot, blocks);
    }
}

/// The blocks whose room is taken, without that of the named slot.
fn blocks_without(slots: &[Option<Slot>], without: Option<u8>) -> BlockList
    requires { CanFree slots.now without }
    ensures { result.items ≡ blocks_of (without_slot without slots.now) }
{
    let mut blocks = BlockList::new();
    match without {
        None => add_blocks(slots, &mut blocks),
        Some(freed) => {
            let freed = freed as usize;
            add_blocks(&slots[..freed], &mut blocks);
            add_blocks(&slots[freed + 1..], &mut blocks);
        }
    }
    blocks
}

/// The least free slot and the least place for a block of this size, the named slot counted as free.
pub(crate) fn room_for(slots: &[Option<Slot>], size: u32, without: Option<u8>) -> Option<(u8, u32)>
    requires { CanFree slots.now without }
    ensures { result ≡ room_in size (without_slot without slots.now) }
{
    let slot = free_slot(slots, without)?;
    let blocks = blocks_without(slots, without);
    let at = place(blocks.as_slice(), size)?;
    Some((slot, at))
}

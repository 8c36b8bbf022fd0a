//! After a boot each slot has the block that is open in it, and none is in doubt.

ghost use Rattle.std.specs.Prelude.{◌≡◌, ◌<◌, ◌&&◌, ◌++◌, [], ◌∷◌, None, length, map, replicate, is_some, slice_index_or, if◌then◌else◌};
ghost use Rattle.std.specs.Option.{option_map};
ghost use Rattle.cds_layout.specs.Entries.{slot_count};
ghost use Rattle.cds_store.specs.Boots.{opened_slot, is_doubtful_slot, is_found, found_open};

use crate::lookups::copy_of;
use crate::slot::Slot;
use cds_layout::{Directory, SLOTS};
use tbl_kinds::Slots;

/// Whether a slot is in doubt.
fn is_doubtful(slot: &Option<Slot>) -> bool
    ensures { result ≡ is_doubtful_slot slot.now }
{
    match slot {
        Some(taken) => taken.doubtful,
        None => false,
    }
}

/// Whether a slot is in doubt, and its block is open.
fn is_found(slots: &[Option<Slot>], directory: &Directory, slot: u8) -> bool
    requires { slot < length slots.now }
    ensures { result ≡ is_found slots.now directory.now slot }
{
    is_doubtful(&slots[slot as usize]) && directory.slot(slot).is_some()
}

/// Puts a slot last, if it was found.
fn note(found: &mut Slots, slot: u8, is_found: bool)
    requires { length found.old < 128 }
    ensures { found.new ≡ found.old ++ (if is_found then slot ∷ [] else []) }
{
    if is_found {
        found.add(slot);
    }
}

/// The slots in doubt whose blocks are open, in their order.
pub(crate) fn find_found(slots: &[Option<Slot>], directory: &Directory) -> Slots
    requires { length slots.now ≡ slot_count }
    ensures { result ≡ found_open slots.now directory.now }
{
    let mut found = Slots::make();
    for slot in 0..SLOTS {
        let is_found = is_found(slots, directory, slot);
        note(&mut found, slot, is_found);
    }
    found
}

/// A slot with the open block that the directory has in it.
fn opened(directory: &Directory, slot: u8) -> Option<Slot>
    ensures { result ≡ option_map opened_slot (slice_index_or directory.now slot None) }
{
    match directory.slot(slot) {
        Some(block) => Some(Slot {
            block: copy_of(block),
            doubtful: false,
        }),
        None => None,
    }
}

/// Each slot gets the block that is open in it.
pub(crate) fn open_all(slots: &mut Vec<Option<Slot>>, directory: &Directory)
    requires slots { length slots.old.items ≡ slot_count }
    requires directory { length directory.now ≡ slot_count }
    ensures { slots.new.items ≡ map (option_map opened_slot) directory.now }
{
    for slot in 0..SLOTS {
        slots[slot as usize] = opened(directory, slot);
    }
}

/// All slots become free.
pub(crate) fn forget_all(slots: &mut Vec<Option<Slot>>)
    ensures { slots.new.items ≡ replicate (length slots.old.items) None }
{
    for slot in 0..slots.len() {
        slots[slot] = None;
    }
}

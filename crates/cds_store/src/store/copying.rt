//! A store once more, over another bank.

ghost use Rattle.std.specs.Prelude.{◌≡◌, ◌≤◌, length, IfOk};
ghost use Rattle.tbl_kinds.specs.Places.{bank_size};
ghost use Rattle.cds_layout.specs.Directory.{directory_len};
ghost use Rattle.cds_store.specs.Sound.{IsRoom};

use super::{Room, Store, front_bytes, place_bytes};
use crate::lookups::copy_of;
use crate::slot::Slot;
use cds_layout::Directory;
use std::alloc::Global;
use tbl_kinds::Memory;
use tbl_outside::Bank;

/// The same slot once more, if it is taken.
fn copy_slot(slot: &Option<Slot>) -> Option<Slot>
    ensures { result ≡ slot.now }
{
    match slot {
        Some(slot) => Some(Slot {
            block: copy_of(&slot.block),
            doubtful: slot.doubtful,
        }),
        None => None,
    }
}

/// The same slots in memory of their own.
fn copy_slots(alloc: Global, slots: &[Option<Slot>]) -> Result<Vec<Option<Slot>>, Memory>
    ensures { IfOk result (λ copies. copies.items ≡ slots.now) }
{
    let mut copies = Vec::with_capacity(alloc, slots.len())?;
    for slot in slots {
        copies.push(copy_slot(slot))?;
    }
    Ok(copies)
}

/// What a store with these slots takes from memory.
fn room_with(alloc: Global, slots: &[Option<Slot>]) -> Result<Room, Memory>
    ensures room { IfOk result (λ room. IsRoom slots.now room.slots.items room.front.items room.place.items) }
{
    Ok(Room {
        slots: copy_slots(alloc, slots)?,
        directory: Directory::make(alloc)?,
        front: front_bytes(alloc)?,
        place: place_bytes(alloc)?,
    })
}

impl<B: Bank> Store<B> {
    /// The same slots in memory of their own, over another bank, which holds the same bytes. An Err means out of memory; the bank is gone
    /// then.
    pub fn duplicate(&self, alloc: Global, bank: B) -> Result<Store<B>, Memory>
        requires room { bank_size ≤ B.size bank }
        requires same { B.tells → B.now bank ≡ B.now self.now.bank }
        ensures { IfOk result (λ copy. copy ≡ record self.now { bank = bank }) }
    {
        let room = room_with(alloc, &self.slots)?;
        Ok(Store {
            slots: room.slots,
            bank,
            booted: self.booted,
            directory: room.directory,
            front: room.front,
            room: room.place,
        })
    }
}

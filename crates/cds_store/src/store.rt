ghost use Rattle.std.specs.Prelude.{◌≡◌, ◌≤◌, ◌<◌, None, Some, true, false, not, List, ℕ, [], length, replicate, is_some, is_ok, slice_set, IsSome, IfSome, IfOk, OnOk, OnErr, IfErr};
ghost use Rattle.std.specs.Option.{ForSome, option_map, option_copied};
ghost use Rattle.tbl_kinds.specs.Names.{is_name};
ghost use Rattle.tbl_kinds.specs.Limits.{table_limit};
ghost use Rattle.tbl_kinds.specs.Places.{bank_size};
ghost use Rattle.tbl_kinds.specs.Blocks.{Stored, Store as Blocks};
ghost use Rattle.tbl_kinds.specs.StoreCalls.{reserve, copy, restore, delete, after, broken, CanBreak};
ghost use Rattle.tbl_kinds.specs.StoreSteps.{stored_at, open_of, doubtful_of, has_room, closed, booted};
ghost use Rattle.tbl_kinds.specs.Free.{least_free};
ghost use Rattle.tbl_outside.specs.Bank.{LeavesOnly};
ghost use Rattle.cds_layout.specs.Directory.{directory_len};
ghost use Rattle.tbl_outside.specs.BankCalls.{Asks};
ghost use Rattle.cds_layout.specs.Images.{spelled, store_of};
ghost use Rattle.cds_layout.specs.Order.{boot_calls, reserve_calls, copy_calls, restore_calls, delete_calls};
ghost use Rattle.cds_layout.specs.Restores.{TellsTorn, SaysWhy, RestoreCounted, was_read};
ghost use Rattle.cds_store.specs.Boots.{BeginsAt, found_by};
ghost use Rattle.cds_store.specs.Calls.{Steady, CallCounted, ReserveCounted, HasFlags, IfBank, lacks_room, is_gate, is_old};
ghost use Rattle.cds_store.specs.Moments.{BootLeaves, LeavesIn, CopyTears};
ghost use Rattle.cds_store.specs.Slots.{open_slot, doubtful_slot, without_slot, room_in, block_of, has_open};
ghost use Rattle.cds_store.specs.Sound.{IsRoom, slot_at, IsOpenOf};
ghost use Rattle.cds_store.specs.StoreBlocks.{StandsFor, after_fault, held_at, ComesBack};
ghost use Rattle.cds_store.specs.Promises.{Finds, Boots, Reserves, Copies, Restores, Deletes};

use crate::boot::boot;
use crate::fault::{BankFault, ReserveFault};
use crate::gates::close;
use crate::images::{copy, restore};
use crate::lookups::{block_in, find_doubtful, find_open, open_in, room_for};
use crate::reserving::reserve;
use crate::settling::forget_all;
use crate::slot::Slot;
use cds_layout::{BLOCKS_BEGIN, Directory, MOST_PLACE, RestoreFault, SLOTS};
use check_word::Checked;
use std::alloc::{AllocError, Global};
use std::marker::Model;
use std::mem;
use tbl_kinds::{Block, BlockKind, Memory, Name40, ResetKind, Slots};
use tbl_outside::{Back, Bank};

mod copying;

/// The Critical Data Store in a bank: what is known of the 128 slots of its directory, and the bank. It takes all its
/// memory when it is made.
#[derive(Drop)]
pub struct Store<B: Bank> {
    slots: Vec<Option<Slot>>,
    bank: B,
    booted: bool,
    directory: Directory,
    /// The room into which a boot reads the first bytes of the bank.
    front: Vec<u8>,
    /// The room in which an image is spelled as a place has it.
    room: Vec<u8>,
}

impl<B: Bank> Model for Store<B> {
    ghost use Rattle.cds_store.specs.StoreBlocks.{StoreParts};
    ghost use Rattle.cds_store.specs.Sound.{IsKept};

    ghost Value = { StoreParts B };

    ghost view = { λ s. record { slots = s.slots.items; bank = s.bank; booted = s.booted } };

    ghost invariant = { λ s. IsKept B.tells B.size B.now (record { slots = s.slots.items; bank = s.bank; booted = s.booted }) s.front.items s.room.items };
}

/// 128 free slots.
fn free_slots(alloc: Global) -> Result<Vec<Option<Slot>>, AllocError>
    ensures { IfOk result (λ slots. slots.items ≡ replicate 128 None) }
{
    let mut slots = Vec::with_capacity(alloc, usize::from(SLOTS))?;
    for _ in 0..SLOTS {
        slots.push(None)?;
    }
    Ok(slots)
}

/// As many zeros as the live mark and the directory have bytes.
fn front_bytes(alloc: Global) -> Result<Vec<u8>, AllocError>
    ensures { IfOk result (λ front. length front.items ≡ directory_len) }
{
    let mut front = Vec::with_capacity(alloc, BLOCKS_BEGIN as usize)?;
    for _ in 0..BLOCKS_BEGIN {
        front.push(0)?;
    }
    Ok(front)
}

/// As many zeros as the largest place has bytes.
fn place_bytes(alloc: Global) -> Result<Vec<u8>, AllocError>
    ensures { IfOk result (λ room. length room.items ≡ 16392) }
{
    vec![in alloc; 0; MOST_PLACE as usize]
}

/// What a store takes from memory.
#[derive(Drop)]
struct Room {
    slots: Vec<Option<Slot>>,
    directory: Directory,
    front: Vec<u8>,
    place: Vec<u8>,
}

impl Room {
    fn make(alloc: Global) -> Result<Room, Memory>
        ensures room { IfOk result (λ room. IsRoom (replicate 128 None) room.slots.items room.front.items room.place.items) }
    {
        Ok(Room {
            slots: free_slots(alloc)?,
            directory: Directory::make(alloc)?,
            front: front_bytes(alloc)?,
            place: place_bytes(alloc)?,
        })
    }
}

impl<B: Bank> Store<B> {
    /// A store over a bank before anything was read of it. All memory that it needs is taken here.
    pub fn make(alloc: Global, bank: B) -> Result<Store<B>, Back<Memory, B>>
        requires { bank_size ≤ B.size bank }
        ensures slots { IfOk result (λ store. store.slots ≡ replicate 128 None) }
        ensures bank { IfOk result (λ store. store.bank ≡ bank) }
        ensures booted { IfOk result (λ store. store.booted ≡ false) }
        ensures err { IfErr result (λ back. back.bank ≡ bank) }
    {
        match Room::make(alloc) {
            Ok(room) => Ok(Store {
                slots: room.slots,
                bank,
                booted: false,
                directory: room.directory,
                front: room.front,
                room: room.place,
            }),
            Err(cause) => Err(Back { cause, bank }),
        }
    }

    /// The bank.
    pub fn bank(&self) -> &B
        ensures bank { result.now ≡ self.now.bank }
        ensures room { bank_size ≤ B.size result.now }
    {
        &self.bank
    }

    /// Puts another bank in the place of the one that it has, and gives that back. The new one holds the same bytes.
    pub fn replace_bank(&mut self, bank: B) -> B
        requires room { bank_size ≤ B.size bank }
        requires same { B.tells → B.now bank ≡ B.now self.old.bank }
        ensures old { result ≡ self.old.bank }
        ensures new { self.new ≡ record self.old { bank = bank } }
    {
        mem::replace(&mut self.bank, bank)
    }

    /// The bank, which has room for a further store.
    pub fn end(self) -> B
        ensures bank { result ≡ self.bank }
        ensures room { bank_size ≤ B.size result }
    {
        self.bank
    }

    /// Reads the directory, and answers which slots in doubt it found open. After a reset of the processor each open block is there, and
    /// gates that have none are closed; after a power-on, and over a bank that isn't live, the directory is cleared. An `Err` leaves the
    /// store as right after `make`, without slots: boot again.
    pub fn boot(&mut self, kind: ResetKind) -> Result<Slots, BankFault>
        ensures booted { self.new.booted ≡ is_ok result }
        ensures err { OnErr result (self.new.slots ≡ replicate 128 None) }
        ensures boots { Boots B.Bank self.old self.new kind (boot_calls kind (B.now self.old.bank)) result }
    {
        self.booted = false;
        let ended = boot(
            &mut self.bank,
            &mut self.slots,
            &mut self.front,
            &mut self.room,
            &mut self.directory,
            kind,
        );
        match ended {
            Ok(found) => {
                self.booted = true;
                Ok(found)
            }
            Err(fault) => {
                forget_all(&mut self.slots);
                Err(fault)
            }
        }
    }

    /// The slot of the open block of this kind and name.
    pub fn find(&self, kind: BlockKind, name: &Name40) -> Option<u8>
        ensures { Finds B.Bank self.now (open_slot kind name.now self.now.slots) (open_of kind name.now) result }
    {
        find_open(&self.slots, kind, name)
    }

    /// The slot of the doubtful block of this kind and name.
    pub fn doubtful(&self, kind: BlockKind, name: &Name40) -> Option<u8>
        ensures { Finds B.Bank self.now (doubtful_slot kind name.now self.now.slots) (doubtful_of kind name.now) result }
    {
        find_doubtful(&self.slots, kind, name)
    }

    /// The block of a slot, open or in doubt.
    pub fn block(&self, slot: u8) -> Option<&Block>
        ensures slot { option_copied result ≡ option_map block_of (slot_at self.now.slots slot) }
        ensures block { (blocks : Blocks) → StandsFor B.tells B.now self.now blocks →
            option_copied result ≡ option_map (λ (b : Stored). b.block) (stored_at blocks slot) }
        ensures sized { IfSome result (λ block. (1 ≤ block.now.size) × (block.now.size ≤ table_limit)) }
    {
        block_in(&self.slots, slot)
    }

    /// The slot of this number, if it has an open block. None if it is in doubt or has no block.
    pub fn open_in(&self, number: u16) -> Option<u8>
        ensures some { IfSome result (λ slot. slot ≡ number) }
        ensures open { is_some result ≡ has_open (slot_at self.now.slots number) }
    {
        open_in(&self.slots, number)
    }

    /// Whether a slot and a place are there for a block of this size, the named slot counted as free.
    pub fn room(&self, size: u32, without: Option<u8>) -> bool
        requires { IfSome without (λ slot. slot < 128) }
        ensures { (blocks : Blocks) → StandsFor B.tells B.now self.now blocks → result ≡ has_room size without blocks }
    {
        room_for(&self.slots, size, without).is_some()
    }

    /// Reserves a block for an image of this size in the least free slot, at the least place, and answers the slot. It
    /// holds no image. A doubtful block of this kind and name is closed first.
    pub fn reserve_block(
        &mut self,
        kind: BlockKind,
        name: &Name40,
        size: u32,
    ) -> Result<u8, ReserveFault>
        requires booted { self.old.booted ≡ true }
        requires named { is_name name.now ≡ true }
        requires some { 1 ≤ size }
        requires within { size ≤ 16384 }
        requires none_open { open_slot kind name.now self.old.slots ≡ None }
        ensures reserves { Reserves B.Bank self.old self.new kind name.now size result }
    {
        reserve(&mut self.bank, &mut self.slots, kind, name, size)
    }

    /// Copies an image into an open block of its size: head and bytes in one write into the place that doesn't show, and then its turn
    /// byte, which makes it show. If the copy breaks off before that byte, the block holds what it held. If it breaks off in that byte, the
    /// block holds that or the image.
    pub fn copy(&mut self, slot: u8, image: &Checked<'_>) -> Result<(), BankFault>
        requires booted { self.old.booted ≡ true }
        requires can { IsOpenOf (length image.now) (slot_at self.old.slots slot) }
        ensures copies { Copies B.Bank self.old self.new slot image.now result }
    {
        copy(&mut self.bank, &self.slots, slot, image, &mut self.room)
    }

    /// Reads the image of an open block. After a fault `into` is left open.
    pub fn restore(&mut self, slot: u8, into: &mut [u8]) -> Result<(), RestoreFault>
        requires booted { self.old.booted ≡ true }
        requires can { IsOpenOf (length into.old) (slot_at self.old.slots slot) }
        ensures restores { Restores B.Bank self.old self.new slot (length into.old) into.new result }
    {
        restore(&mut self.bank, &self.slots, slot, into)
    }

    /// Closes a slot that is taken, and frees it. If the write breaks off, the slot is in doubt.
    pub fn delete_block(&mut self, slot: u8) -> Result<(), BankFault>
        requires booted { self.old.booted ≡ true }
        requires taken { IsSome (slot_at self.old.slots slot) }
        ensures deletes { Deletes B.Bank self.old self.new slot false result }
    {
        close(&mut self.bank, &mut self.slots, slot, false)
    }
}

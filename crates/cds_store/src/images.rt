//! The image of an open block is copied and restored.

ghost use Rattle.std.specs.Prelude.{◌≡◌, ◌≤◌, [], Some, length, is_ok, OnOk, IfErr};
ghost use Rattle.std.specs.Option.{ForSome};
ghost use Rattle.tbl_kinds.specs.Blocks.{Store as Blocks};
ghost use Rattle.tbl_kinds.specs.StoreCalls.{copy, CanBreak};
ghost use Rattle.tbl_kinds.specs.StoreSteps.{stored_at, copied, copy_broken, restored};
ghost use Rattle.tbl_outside.specs.Bank.{LeavesOnly};
ghost use Rattle.tbl_outside.specs.BankCalls.{Asks};
ghost use Rattle.cds_layout.specs.Images.{spelled, store_of};
ghost use Rattle.cds_layout.specs.Order.{copy_calls, restore_calls};
ghost use Rattle.cds_layout.specs.Restores.{TellsTorn, SaysWhy, RestoreCounted, was_read};
ghost use Rattle.cds_store.specs.Calls.{Steady, CallCounted, is_gate, is_old};
ghost use Rattle.cds_store.specs.Moments.{LeavesIn, CopyTears};
ghost use Rattle.cds_store.specs.Sound.{SoundOver, slot_at, IsSound, IsOpenOf};
ghost use Rattle.cds_store.specs.StoreBlocks.{StandsFor, kept, after_fault, held_at, ComesBack};
ghost use Rattle.cds_store.specs.Promises.{Copies, Restores};

use crate::fault::BankFault;
use crate::slot::Slot;
use crate::writes::write_image;
use cds_layout::{RestoreFault, read_block};
use check_word::Checked;
use tbl_outside::Bank;

/// Copies an image into an open block.
pub(crate) fn copy<B: Bank>(
    bank: &mut B,
    slots: &[Option<Slot>],
    slot: u8,
    image: &Checked<'_>,
    room: &mut [u8],
) -> Result<(), BankFault>
    requires sound { SoundOver B.Bank slots.now bank.old }
    requires room { length room.old ≡ 16392 }
    requires can { IsOpenOf (length image.now) (slot_at slots.now slot) }
    ensures sound { SoundOver B.Bank slots.now bank.new }
    ensures copies { Copies B.Bank (kept slots.now bank.old) (kept slots.now bank.new) slot image.now result }
{
    match &slots[slot as usize] {
        Some(taken) => write_image(bank, slot, &taken.block, image, room),
        None => unreachable!(),
    }
}

/// Reads the image of an open block.
pub(crate) fn restore<B: Bank>(
    bank: &mut B,
    slots: &[Option<Slot>],
    slot: u8,
    into: &mut [u8],
) -> Result<(), RestoreFault>
    requires sound { SoundOver B.Bank slots.now bank.old }
    requires can { IsOpenOf (length into.old) (slot_at slots.now slot) }
    ensures sound { SoundOver B.Bank slots.now bank.new }
    ensures restores { Restores B.Bank (kept slots.now bank.old) (kept slots.now bank.new) slot (length into.old) into.new result }
{
    match &slots[slot as usize] {
        Some(taken) => read_block(bank, slot, &taken.block, into),
        None => unreachable!(),
    }
}

//! The gate of a slot that is taken is closed.

ghost use Rattle.std.specs.Prelude.{◌≡◌, ◌<◌, ◌≤◌, true, None, length, slice_set, is_ok, IsSome, OnOk, OnErr, IfErr};
ghost use Rattle.std.specs.Option.{option_map};
ghost use Rattle.tbl_kinds.specs.Blocks.{Store as Blocks};
ghost use Rattle.tbl_kinds.specs.StoreCalls.{delete};
ghost use Rattle.tbl_kinds.specs.StoreSteps.{deleted, delete_broken};
ghost use Rattle.tbl_outside.specs.Bank.{LeavesOnly};
ghost use Rattle.tbl_outside.specs.BankCalls.{Asks};
ghost use Rattle.cds_layout.specs.Order.{delete_calls};
ghost use Rattle.cds_store.specs.Calls.{Steady, CallCounted, HasFlags};
ghost use Rattle.cds_store.specs.Moments.{LeavesIn};
ghost use Rattle.cds_store.specs.Sound.{SoundOver, slot_at, IsSound};
ghost use Rattle.cds_store.specs.StoreBlocks.{StandsFor, kept, doubted};
ghost use Rattle.cds_store.specs.Promises.{Deletes};

use crate::fault::BankFault;
use crate::slot::Slot;
use crate::writes::set_gate;
use cds_layout::GATE_CLOSED;
use tbl_outside::Bank;

/// From now on the gate of this slot is in doubt.
fn doubt(slots: &mut Vec<Option<Slot>>, slot: u8)
    requires { slot < length slots.old.items }
    ensures { slots.new.items ≡ slice_set slots.old.items slot (option_map doubted (slot_at slots.old.items slot)) }
{
    if let Some(taken) = &mut slots[slot as usize] {
        taken.doubtful = true;
    }
}

/// Closes the gate of a slot that is taken, and frees the slot. If the write breaks off, the slot is in doubt.
pub(crate) fn close<B: Bank>(
    bank: &mut B,
    slots: &mut Vec<Option<Slot>>,
    slot: u8,
    old: bool,
) -> Result<(), BankFault>
    requires sound { SoundOver B.Bank slots.old.items bank.old }
    requires taken { IsSome (slot_at slots.old.items slot) }
    ensures sound { SoundOver B.Bank slots.new.items bank.new }
    ensures deletes { Deletes B.Bank (kept slots.old.items bank.old) (kept slots.new.items bank.new) slot old result }
{
    match set_gate(bank, slot, GATE_CLOSED, old) {
        Ok(()) => {
            slots[slot as usize] = None;
            Ok(())
        }
        Err(fault) => {
            doubt(slots, slot);
            Err(fault)
        }
    }
}

//! A block is made in a free slot.

ghost use Rattle.std.specs.Prelude.{◌≡◌, ◌⊎◌, ◌<◌, ◌≤◌, None, Some, true, false, List, ℕ, [], ◌∷◌, is_ok, is_err, OnOk, IfErr};
ghost use Rattle.tbl_kinds.specs.Blocks.{Store as Blocks};
ghost use Rattle.tbl_outside.specs.Bank.{LeavesOnly};
ghost use Rattle.tbl_outside.specs.BankCalls.{Asks, write};
ghost use Rattle.cds_layout.specs.Entries.{gate_place, gate_open, told_at, block_in};
ghost use Rattle.cds_layout.specs.Images.{turned_in};
ghost use Rattle.cds_layout.specs.Order.{make_calls};
ghost use Rattle.cds_store.specs.Calls.{Steady, CallCounted, HasFlags, is_gate, is_old};
ghost use Rattle.cds_store.specs.Moments.{ShowsIn};
ghost use Rattle.cds_store.specs.Sound.{SoundOver, slot_at, IsSound, IsNew};
ghost use Rattle.cds_store.specs.StoreBlocks.{StandsFor, kept, with_new, made_or_not};
ghost use Rattle.cds_store.specs.BankSteps.{AsksFor, Alters};

use crate::fault::BankFault;
use crate::slot::Slot;
use crate::writes::{set_gate, write_entry};
use cds_layout::GATE_OPEN;
use tbl_kinds::Block;
use tbl_outside::Bank;

/// Opens the gate of a free slot whose entry has a block that holds no image. If the write breaks off, the slot is in doubt.
fn open_gate<B: Bank>(
    bank: &mut B,
    slots: &mut Vec<Option<Slot>>,
    slot: u8,
    block: Block,
) -> Result<(), BankFault>
    requires sound { SoundOver B.Bank slots.old.items bank.old }
    requires new { IsNew slot slots.old.items block }
    requires entry { B.tells → block_in (told_at (B.now bank.old) slot) ≡ Some block }
    requires none { B.tells → turned_in (B.now bank.old) slot ≡ None }
    ensures alters { Alters B.Bank (kept slots.old.items bank.old) (kept slots.new.items bank.new) (with_new false slot block)
        (λ fault. with_new true slot block) (λ blocks. ShowsIn (with_new true slot block blocks)) result }
    ensures bank_calls { AsksFor B.Bank bank.old bank.new (write (gate_place slot) (gate_open ∷ []) ∷ []) result }
    ensures flags { IfErr result (HasFlags true false) }
{
    let written = set_gate(bank, slot, GATE_OPEN, false);
    slots[slot as usize] = Some(Slot {
        block,
        doubtful: written.is_err(),
    });
    written
}

/// Makes a block in a free slot: first the entry is written, which makes no place of it show, and then the gate is opened. If the first
/// write breaks off, the slot stays free. If the write of the gate breaks off, the slot is in doubt.
pub(crate) fn make<B: Bank>(
    bank: &mut B,
    slots: &mut Vec<Option<Slot>>,
    slot: u8,
    block: Block,
) -> Result<(), BankFault>
    requires sound { SoundOver B.Bank slots.old.items bank.old }
    requires new { IsNew slot slots.old.items block }
    ensures alters { Alters B.Bank (kept slots.old.items bank.old) (kept slots.new.items bank.new) (with_new false slot block)
        (λ fault. made_or_not (is_gate fault) slot block)
        (λ blocks image. ShowsIn blocks image ⊎ ShowsIn (with_new true slot block blocks) image) result }
    ensures bank_calls { AsksFor B.Bank bank.old bank.new (make_calls slot block) result }
    ensures not_old { IfErr result (λ fault. is_old fault ≡ false) }
{
    write_entry(bank, slot, &block)?;
    open_gate(bank, slots, slot, block)
}

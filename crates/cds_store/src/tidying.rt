//! The gates of a live bank that have no block are closed.

ghost use Rattle.std.specs.Prelude.{◌≡◌, ◌≤◌, ◌<◌, ◌+◌, List, ℕ, [], true, false, length, is_ok, OnOk, IfErr};
ghost use Rattle.tbl_kinds.specs.Places.{bank_size};
ghost use Rattle.tbl_outside.specs.Bank.{LeavesOnly};
ghost use Rattle.tbl_outside.specs.BankCalls.{Asks};
ghost use Rattle.cds_layout.specs.Directory.{directory_len, is_live};
ghost use Rattle.cds_layout.specs.Entries.{slot_count};
ghost use Rattle.cds_layout.specs.Fronts.{IsFront, WasRead};
ghost use Rattle.cds_layout.specs.Order.{is_stray, close_stray, strays_to};
ghost use Rattle.cds_store.specs.Boots.{SameStore, Tidied};
ghost use Rattle.cds_store.specs.Calls.{Steady, CallCounted, is_old};
ghost use Rattle.cds_store.specs.BankSteps.{Keeps, Changes, BootStep};

use crate::fault::BankFault;
use crate::writes::set_gate;
use cds_layout::{Directory, GATE_CLOSED, GATE_OPEN, SLOTS, gate_place};
use tbl_outside::Bank;

/// Whether the gate of a slot is open, and its entry has no block of the directory.
fn is_stray(front: &[u8], directory: &Directory, slot: u8) -> bool
    requires len { length front.now ≡ directory_len }
    requires within { slot < slot_count }
    ensures { result ≡ is_stray front.now directory.now slot }
{
    front[gate_place(slot) as usize] == GATE_OPEN && directory.slot(slot).is_none()
}

/// Closes the gate of a slot, if it has no block of the directory. The first bytes and the directory are those with which the boot began.
fn tidy_slot<B: Bank>(
    bank: &mut B,
    front: &[u8],
    directory: &Directory,
    slot: u8,
) -> Result<(), BankFault>
    requires len { length front.now ≡ directory_len }
    requires within { slot < slot_count }
    requires room { bank_size ≤ B.size bank.old }
    ensures keeps { Keeps B.Bank bank.old bank.new result }
    ensures changes { (old : List ℕ) → (B.tells → IsFront front.now directory.now old) → (B.tells → Tidied old (B.now bank.old) slot) →
        Changes B.Bank bank.old bank.new (λ image. Tidied old image (slot + 1)) (SameStore old)
        (close_stray front.now directory.now slot) result }
{
    if is_stray(front, directory, slot) {
        set_gate(bank, slot, GATE_CLOSED, false)
    } else {
        Ok(())
    }
}

/// Closes each gate that has no block of the directory, from the first slot to the last.
pub(crate) fn tidy_live<B: Bank>(
    bank: &mut B,
    front: &[u8],
    directory: &Directory,
) -> Result<(), BankFault>
    requires front { WasRead B.Bank bank.old front.now directory.now }
    requires live { B.tells → is_live (B.now bank.old) ≡ true }
    ensures { BootStep B.Bank bank.old bank.new (λ image. Tidied (B.now bank.old) image slot_count) (SameStore (B.now bank.old))
        (strays_to slot_count front.now directory.now) result }
{
    for slot in 0..SLOTS {
        tidy_slot(bank, front, directory, slot)?;
    }
    Ok(())
}

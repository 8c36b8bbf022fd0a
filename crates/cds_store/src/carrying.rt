//! A store of the first version, in which a block had one place, is carried over: first the turn bytes of each block are written for its
//! first place, and last the version, which says that they count.

ghost use Rattle.std.specs.Prelude.{◌≡◌, ◌≤◌, ◌<◌, ◌+◌, ◌++◌, List, ℕ, None, Some, [], ◌∷◌, true, false, length, is_ok, OnOk, IfOk, IfErr, slice_index_or};
ghost use Rattle.tbl_kinds.specs.Places.{bank_size};
ghost use Rattle.tbl_kinds.specs.declared.block.Block.{Block};
ghost use Rattle.tbl_outside.specs.Bank.{LeavesOnly};
ghost use Rattle.tbl_outside.specs.BankCalls.{Asks, read, write};
ghost use Rattle.cds_layout.specs.Directory.{directory_len, directory_of, version_place};
ghost use Rattle.cds_layout.specs.Entries.{slot_count, is_right};
ghost use Rattle.cds_layout.specs.Fronts.{IsFront};
ghost use Rattle.cds_layout.specs.Lines.{AreRight};
ghost use Rattle.cds_layout.specs.Images.{head_len, is_whole};
ghost use Rattle.cds_layout.specs.Order.{carried_turns, carry_at, carried_to, carry_calls};
ghost use Rattle.cds_layout.specs.declared.turns.Place.TheVariants as place;
ghost use Rattle.cds_store.specs.Boots.{CanCarry, SameStore, Tidied, Carried, IsTidy};
ghost use Rattle.cds_store.specs.Calls.{Steady, CallCounted, is_old};
ghost use Rattle.cds_store.specs.Sound.{CanHold};
ghost use Rattle.cds_store.specs.BankSteps.{Keeps, Changes};

use crate::fault::BankFault;
use crate::writes::write;
use cds_layout::{
    Directory, SLOTS, Turn, VERSION, VERSION_PLACE, is_first_version, read_first, turn_byte,
    turns_place,
};
use tbl_kinds::Block;
use tbl_outside::Bank;

/// The turn bytes that make the first place show, if it is whole.
fn carried_turns(whole: bool) -> [u8; 2]
    ensures { result ≡ carried_turns whole }
{
    if whole {
        [turn_byte(Turn::Zero), 0]
    } else {
        [0, 0]
    }
}

/// Reads the first place of a block, and writes the turn bytes that make it show, if it is whole.
fn carry_block<B: Bank>(
    bank: &mut B,
    slot: u8,
    block: &Block,
    room: &mut [u8],
) -> Result<(), BankFault>
    requires can { CanHold B.Bank bank.old slot block.now }
    requires buffer { length room.old ≡ 16392 }
    ensures keeps { Keeps B.Bank bank.old bank.new result }
    ensures changes { (old : List ℕ) → (B.tells → slice_index_or (directory_of old) slot None ≡ Some block.now) →
        (B.tells → Carried old (B.now bank.old) slot) →
        Changes B.Bank bank.old bank.new (λ image. Carried old image (slot + 1)) (SameStore old)
        (carry_at (B.now bank.old) slot (Some block.now)) result }
{
    let whole = read_first(bank, block, room)?;
    write(bank, turns_place(slot), &carried_turns(whole), false, false)
}

/// The same for a slot, which may have no block.
fn carry_slot<B: Bank>(
    bank: &mut B,
    directory: &Directory,
    slot: u8,
    room: &mut [u8],
) -> Result<(), BankFault>
    requires within { slot < slot_count }
    requires can { CanCarry B.Bank bank.old directory.now room.old }
    ensures keeps { Keeps B.Bank bank.old bank.new result }
    ensures changes { (old : List ℕ) → (B.tells → directory.now ≡ directory_of old) → (B.tells → Carried old (B.now bank.old) slot) →
        Changes B.Bank bank.old bank.new (λ image. Carried old image (slot + 1)) (SameStore old)
        (carry_at (B.now bank.old) slot (slice_index_or directory.now slot None)) result }
{
    match directory.slot(slot) {
        Some(block) => carry_block(bank, slot, block, room),
        None => Ok(()),
    }
}

/// The same for all slots, from the first to the last.
fn carry_blocks<B: Bank>(
    bank: &mut B,
    directory: &Directory,
    room: &mut [u8],
) -> Result<(), BankFault>
    requires can { CanCarry B.Bank bank.old directory.now room.old }
    ensures keeps { Keeps B.Bank bank.old bank.new result }
    ensures changes { (old : List ℕ) → (B.tells → directory.now ≡ directory_of old) → (B.tells → Carried old (B.now bank.old) 0) →
        Changes B.Bank bank.old bank.new (λ image. Carried old image slot_count) (SameStore old)
        (carried_to slot_count old (directory_of old)) result }
{
    for slot in 0..SLOTS {
        carry_slot(bank, directory, slot, room)?;
    }
    Ok(())
}

/// Writes the version. From now on the turn bytes count.
fn write_version<B: Bank>(bank: &mut B) -> Result<(), BankFault>
    requires room { bank_size ≤ B.size bank.old }
    ensures keeps { Keeps B.Bank bank.old bank.new result }
    ensures changes { (old : List ℕ) → (B.tells → Carried old (B.now bank.old) slot_count) →
        Changes B.Bank bank.old bank.new (IsTidy old) (SameStore old) (write version_place (0x32 ∷ []) ∷ []) result }
{
    write(bank, VERSION_PLACE, &[VERSION], false, false)
}

/// Carries a store of the first version over; one of another is as it is to be. The first bytes and the directory are those
/// with which the boot began.
pub(crate) fn carry<B: Bank>(
    bank: &mut B,
    front: &[u8],
    room: &mut [u8],
    directory: &Directory,
) -> Result<(), BankFault>
    requires len { length front.now ≡ directory_len }
    requires can { CanCarry B.Bank bank.old directory.now room.old }
    ensures keeps { Keeps B.Bank bank.old bank.new result }
    ensures changes { (old : List ℕ) → (B.tells → IsFront front.now directory.now old) →
        (B.tells → Tidied old (B.now bank.old) slot_count) →
        Changes B.Bank bank.old bank.new (IsTidy old) (SameStore old) (carry_calls old) result }
{
    if is_first_version(front) {
        carry_blocks(bank, directory, room)?;
        write_version(bank)
    } else {
        Ok(())
    }
}

//! A boot reads the directory and makes it match the slots.

ghost use Rattle.std.specs.Prelude.{◌≡◌, ◌⊎◌, ◌≤◌, true, List, ℕ, [], ◌∷◌, ◌++◌, false, length, is_ok, map, replicate, None, IfOk, OnOk, OnErr, IfErr};
ghost use Rattle.std.specs.Option.{option_map};
ghost use Rattle.tbl_kinds.specs.Numbers.{piece, byte_at};
ghost use Rattle.tbl_kinds.specs.Places.{bank_size};
ghost use Rattle.tbl_kinds.specs.Blocks.{Store as Blocks};
ghost use Rattle.tbl_kinds.specs.StoreSteps.{booted};
ghost use Rattle.tbl_kinds.specs.declared.request.ResetKind.TheVariants.{Processor, PowerOn};
ghost use Rattle.tbl_outside.specs.Bank.{LeavesOnly};
ghost use Rattle.tbl_outside.specs.BankCalls.{Asks, read};
ghost use Rattle.cds_layout.specs.Directory.{directory_len, directory_of, is_live};
ghost use Rattle.cds_layout.specs.Entries.{slot_count};
ghost use Rattle.cds_store.specs.Boots.{BeginsSo, SettlesSlots, SameStore, IsTidy, IsCleared, Clears, AreZeros, BeginsAt, opened_slot, found_open, found_by};
ghost use Rattle.cds_layout.specs.Images.{store_of};
ghost use Rattle.cds_layout.specs.Order.{clear_calls, strays_to, carry_calls, boot_writes, boot_calls};
ghost use Rattle.cds_layout.specs.Fronts.{WasRead};
ghost use Rattle.cds_store.specs.Calls.{Steady, CallCounted, is_old};
ghost use Rattle.cds_store.specs.Moments.{BootLeaves};
ghost use Rattle.cds_store.specs.Sound.{SoundOver, IsSound};
ghost use Rattle.cds_store.specs.StoreBlocks.{StandsFor, kept};
ghost use Rattle.cds_store.specs.BankSteps.{ClearsAll, Tidies};
ghost use Rattle.cds_store.specs.Promises.{Boots};

use crate::carrying::carry;
use crate::clearing::clear;
use crate::fault::BankFault;
use crate::settling::{find_found, forget_all, open_all};
use crate::slot::Slot;
use crate::tidying::tidy_live;
use cds_layout::{Directory, ENTRIES_PLACE, is_live, read_front};
use tbl_kinds::{ResetKind, Slots};
use tbl_outside::Bank;

#[tactic(auto, using(crate::proofs::Emptied::zeros_replicate))]
fn zero_all(bytes: &mut [u8])
    ensures len { length bytes.new ≡ length bytes.old }
    ensures zeros { AreZeros bytes.new }
{
    bytes.fill(0);
}

/// The bytes of the entries.
fn entries_of(bytes: &[u8]) -> &[u8]
    requires { length bytes.now ≡ directory_len }
    ensures len { length result.now ≡ 8192 }
    ensures zeros { AreZeros bytes.now → AreZeros result.now }
{
    &bytes[ENTRIES_PLACE as usize..]
}

/// The first of the bytes.
fn first_of(bytes: &[u8]) -> u8
    requires { length bytes.now ≡ directory_len }
    ensures { result ≡ byte_at 0 bytes.now }
{
    bytes[0]
}

/// Clears the whole directory. The bytes that were read are used up.
pub(crate) fn clear_all<B: Bank>(bank: &mut B, front: &mut [u8]) -> Result<(), BankFault>
    requires { BeginsSo B.Bank bank.old front.old }
    ensures { ClearsAll B.Bank bank.old bank.new (clear_calls (B.now bank.old)) result }
{
    let first = first_of(front);
    zero_all(front);
    clear(bank, first, entries_of(front))
}

/// Closes the gates of a live bank that have no block, and carries a store of the first version over.
fn renew<B: Bank>(
    bank: &mut B,
    front: &[u8],
    room: &mut [u8],
    directory: &Directory,
) -> Result<(), BankFault>
    requires front { WasRead B.Bank bank.old front.now directory.now }
    requires buffer { length room.old ≡ 16392 }
    requires live { B.tells → is_live (B.now bank.old) ≡ true }
    ensures { Tidies B.Bank bank.old bank.new
        (strays_to slot_count (B.now bank.old) (directory_of (B.now bank.old)) ++ carry_calls (B.now bank.old)) result }
{
    tidy_live(bank, front, directory)?;
    carry(bank, front, room, directory)
}

/// Renews a live bank, and clears one that isn't live.
fn tidy<B: Bank>(
    bank: &mut B,
    front: &mut [u8],
    room: &mut [u8],
    directory: &Directory,
) -> Result<(), BankFault>
    requires front { WasRead B.Bank bank.old front.old directory.now }
    requires buffer { length room.old ≡ 16392 }
    ensures { Tidies B.Bank bank.old bank.new
        (boot_writes Processor (B.now bank.old)) result }
{
    if is_live(front) {
        renew(bank, front, room, directory)
    } else {
        clear_all(bank, front)
    }
}

/// Boots after a reset of the processor: each open block is there, and those in doubt are settled.
pub(crate) fn boot_processor<B: Bank>(
    bank: &mut B,
    slots: &mut Vec<Option<Slot>>,
    front: &mut [u8],
    room: &mut [u8],
    directory: &Directory,
) -> Result<Slots, BankFault>
    requires slots { length slots.old.items ≡ slot_count }
    requires buffer { length room.old ≡ 16392 }
    requires front { WasRead B.Bank bank.old front.old directory.now }
    ensures slots { SettlesSlots slots.old.items slots.new.items (found_open slots.old.items directory.now) (map (option_map opened_slot) directory.now) result }
    ensures step { Tidies B.Bank bank.old bank.new
        (boot_writes Processor (B.now bank.old)) result }
{
    tidy(bank, front, room, directory)?;
    let found = find_found(slots, directory);
    open_all(slots, directory);
    Ok(found)
}

/// Boots after a power-on: no block is there.
pub(crate) fn boot_power_on<B: Bank>(
    bank: &mut B,
    slots: &mut Vec<Option<Slot>>,
    front: &mut [u8],
) -> Result<Slots, BankFault>
    requires slots { length slots.old.items ≡ slot_count }
    requires front { BeginsSo B.Bank bank.old front.old }
    ensures slots { SettlesSlots slots.old.items slots.new.items [] (replicate (length slots.old.items) None) result }
    ensures step { ClearsAll B.Bank bank.old bank.new (boot_writes PowerOn (B.now bank.old)) result }
{
    clear_all(bank, front)?;
    forget_all(slots);
    Ok(Slots::make())
}

/// Boots, once the first bytes were read.
fn boot_as<B: Bank>(
    bank: &mut B,
    slots: &mut Vec<Option<Slot>>,
    front: &mut [u8],
    room: &mut [u8],
    directory: &Directory,
    kind: ResetKind,
) -> Result<Slots, BankFault>
    requires slots { length slots.old.items ≡ slot_count }
    requires front { WasRead B.Bank bank.old front.old directory.now }
    requires buffer { length room.old ≡ 16392 }
    ensures sound { OnOk result (SoundOver B.Bank slots.new.items bank.new) }
    ensures err { OnErr result (slots.new.items ≡ slots.old.items) }
    ensures boots { Boots B.Bank (kept slots.old.items bank.old) (kept slots.new.items bank.new) kind
        (boot_writes kind (B.now bank.old)) result }
{
    match kind {
        ResetKind::Processor => boot_processor(bank, slots, front, room, directory),
        ResetKind::PowerOn => boot_power_on(bank, slots, front),
    }
}

/// Reads the first bytes of the bank, and boots.
pub(crate) fn boot<B: Bank>(
    bank: &mut B,
    slots: &mut Vec<Option<Slot>>,
    front: &mut [u8],
    room: &mut [u8],
    directory: &mut Directory,
    kind: ResetKind,
) -> Result<Slots, BankFault>
    requires slots { length slots.old.items ≡ slot_count }
    requires len { length front.old ≡ directory_len }
    requires buffer { length room.old ≡ 16392 }
    requires room { bank_size ≤ B.size bank.old }
    ensures sound { OnOk result (SoundOver B.Bank slots.new.items bank.new) }
    ensures err { OnErr result (slots.new.items ≡ slots.old.items) }
    ensures boots { Boots B.Bank (kept slots.old.items bank.old) (kept slots.new.items bank.new) kind
        (boot_calls kind (B.now bank.old)) result }
{
    read_front(bank, front, directory)?;
    boot_as(bank, slots, front, room, directory, kind)
}

//! A block is reserved.

ghost use Rattle.std.specs.Prelude.{◌≡◌, ◌⊎◌, ◌≤◌, None, Some, Err, true, false, not, length, is_ok, IsSome, IfSome, IfOk, OnOk, IfErr};
ghost use Rattle.std.specs.Option.{ForSome};
ghost use Rattle.tbl_kinds.specs.Names.{is_name};
ghost use Rattle.tbl_kinds.specs.Blocks.{Store as Blocks};
ghost use Rattle.tbl_kinds.specs.StoreCalls.{reserve};
ghost use Rattle.tbl_kinds.specs.StoreSteps.{freed, closed, reserved, reserve_broken, doubtful_of, has_room};
ghost use Rattle.tbl_kinds.specs.Free.{least_free};
ghost use Rattle.tbl_outside.specs.Bank.{LeavesOnly};
ghost use Rattle.tbl_outside.specs.BankCalls.{Asks};
ghost use Rattle.cds_layout.specs.Order.{close_calls, reserve_calls};
ghost use Rattle.cds_store.specs.Calls.{Steady, CallCounted, ReserveCounted, HasFlags, IfBank, lacks_room, is_gate, is_old};
ghost use Rattle.cds_store.specs.Moments.{ShowsIn, LeavesIn, MakeLeaves};
ghost use Rattle.cds_store.specs.Slots.{open_slot, doubtful_slot, without_slot, room_in};
ghost use Rattle.cds_store.specs.Sound.{SoundOver, slot_at, IsSound, IsNew};
ghost use Rattle.cds_store.specs.StoreBlocks.{StandsFor, kept, with_new, closing, broken_at};
ghost use Rattle.cds_store.specs.BankSteps.{AsksFor, Alters};
ghost use Rattle.cds_store.specs.Promises.{Reserves};

use crate::fault::{BankFault, ReserveFault};
use crate::gates::close;
use crate::lookups::{find_doubtful, room_for};
use crate::making::make;
use crate::slot::Slot;
use tbl_kinds::{Block, BlockKind, Name40};
use tbl_outside::Bank;

/// Closes a doubtful block, if there is one.
fn close_old<B: Bank>(
    bank: &mut B,
    slots: &mut Vec<Option<Slot>>,
    old: Option<u8>,
) -> Result<(), BankFault>
    requires sound { SoundOver B.Bank slots.old.items bank.old }
    requires taken { IfSome old (λ n. IsSome (slot_at slots.old.items n)) }
    ensures alters { Alters B.Bank (kept slots.old.items bank.old) (kept slots.new.items bank.new) (freed old) (λ fault. closing old)
        (λ blocks image. ShowsIn blocks image ⊎ ShowsIn (freed old blocks) image ⊎ ShowsIn (closing old blocks) image) result }
    ensures freed { OnOk result (slots.new.items ≡ without_slot old slots.old.items) }
    ensures bank_calls { AsksFor B.Bank bank.old bank.new (close_calls old) result }
    ensures flags { IfErr result (HasFlags true true) }
    ensures there { IfErr result (λ fault. IsSome old) }
{
    match old {
        Some(slot) => close(bank, slots, slot, true),
        None => Ok(()),
    }
}

/// Makes a block in a slot that is free once a doubtful block is closed.
fn make_instead<B: Bank>(
    bank: &mut B,
    slots: &mut Vec<Option<Slot>>,
    old: Option<u8>,
    slot: u8,
    block: Block,
) -> Result<(), BankFault>
    requires sound { SoundOver B.Bank slots.old.items bank.old }
    requires taken { IfSome old (λ n. IsSome (slot_at slots.old.items n)) }
    requires new { IsNew slot (without_slot old slots.old.items) block }
    ensures alters { Alters B.Bank (kept slots.old.items bank.old) (kept slots.new.items bank.new)
        (λ blocks. with_new false slot block (freed old blocks))
        (λ fault. broken_at (is_gate fault) (is_old fault) old slot block) (MakeLeaves old slot block) result }
    ensures bank_calls { AsksFor B.Bank bank.old bank.new (reserve_calls old slot block) result }
    ensures flags { IfErr result (λ fault. is_old fault ≡ true → (is_gate fault ≡ true) × IsSome old) }
{
    close_old(bank, slots, old)?;
    make(bank, slots, slot, block)
}

/// Reserves a block in the least free slot, at the least place. A doubtful block of this kind and name is closed first,
/// and its slot and its room count as free.
pub(crate) fn reserve<B: Bank>(
    bank: &mut B,
    slots: &mut Vec<Option<Slot>>,
    kind: BlockKind,
    name: &Name40,
    size: u32,
) -> Result<u8, ReserveFault>
    requires sound { SoundOver B.Bank slots.old.items bank.old }
    requires named { is_name name.now ≡ true }
    requires some { 1 ≤ size }
    requires within { size ≤ 16384 }
    requires none_open { open_slot kind name.now slots.old.items ≡ None }
    ensures sound { SoundOver B.Bank slots.new.items bank.new }
    ensures reserves { Reserves B.Bank (kept slots.old.items bank.old) (kept slots.new.items bank.new) kind name.now size result }
{
    let old = find_doubtful(slots, kind, name);
    let Some((slot, offset)) = room_for(slots, size, old) else {
        return Err(ReserveFault::NoRoom);
    };
    let block = Block {
        kind,
        offset,
        size,
        name: name.copy(),
    };
    match make_instead(bank, slots, old, slot, block) {
        Ok(()) => Ok(slot),
        Err(fault) => Err(ReserveFault::Bank(fault)),
    }
}

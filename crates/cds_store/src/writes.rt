//! The writes of a call to the bank, with what each leaves of its bytes, whole or broken off.

ghost use Rattle.std.specs.Prelude.{◌≡◌, ◌+◌, ◌^◌, ◌<◌, ◌≤◌, None, Some, true, false, [], ◌∷◌, length, is_ok, IfOk, OnOk, IfErr};
ghost use Rattle.tbl_kinds.specs.Check.{check16};
ghost use Rattle.tbl_kinds.specs.Places.{bank_size};
ghost use Rattle.tbl_kinds.specs.Numbers.{patched};
ghost use Rattle.tbl_outside.specs.Bank.{Torn, LeavesOnly};
ghost use Rattle.tbl_outside.specs.BankCalls.{Asks, write};
ghost use Rattle.cds_layout.specs.Entries.{slot_count, gate_place, gate_at, tail_place, told_at, turn_place, entry_tail, block_in, is_right};
ghost use Rattle.cds_layout.specs.Images.{head_len, place_at, spelled, turn_in, turned_in};
ghost use Rattle.cds_layout.specs.Order.{turn_calls, copy_calls};
ghost use Rattle.cds_layout.specs.Turns.{byte_of};
ghost use Rattle.cds_layout.specs.declared.turns.Place.TheVariants as place;
ghost use Rattle.cds_store.specs.Calls.{Steady, CallCounted, HasFlags, is_gate, is_old};
ghost use Rattle.cds_store.specs.Moments.{TearsBy, CopyTears, copied_bytes};
ghost use Rattle.cds_store.specs.Sound.{CanHold};
ghost use Rattle.cds_store.specs.BankSteps.{Writes, CopiesBytes};

use crate::fault::BankFault;
use cds_layout::{
    HEAD_LENGTH, Place, Turn, entry_bytes, gate_place, place_offset, read_turns, spell, turn_byte,
    turn_place,
};
use check_word::Checked;
use tbl_kinds::Block;
use tbl_outside::{Bank, Written};

/// Writes over a piece, which may be a gate byte, also that of a doubtful block.
pub(crate) fn write<B: Bank>(
    bank: &mut B,
    at: u32,
    bytes: &[u8],
    gate: bool,
    old: bool,
) -> Result<(), BankFault>
    requires { at + length bytes.now ≤ B.size bank.old }
    ensures writes { Writes B.Bank bank.old bank.new at bytes.now (HasFlags gate old) result }
{
    match bank.write_at(at, bytes) {
        Written::Done => Ok(()),
        Written::Failed => Err(BankFault::Fault { gate, old }),
        Written::Stopped => Err(BankFault::Stopped { gate, old }),
    }
}

/// Writes the gate byte of a slot.
pub(crate) fn set_gate<B: Bank>(
    bank: &mut B,
    slot: u8,
    gate: u8,
    old: bool,
) -> Result<(), BankFault>
    requires within { slot < slot_count }
    requires room { bank_size ≤ B.size bank.old }
    ensures done { OnOk result (B.tells → gate_at (B.now bank.new) slot ≡ gate) }
    ensures writes { Writes B.Bank bank.old bank.new (gate_place slot) (gate ∷ []) (HasFlags true old) result }
{
    write(bank, gate_place(slot), &[gate], true, old)
}

/// Writes what the entry of a slot has after its gate, while that is closed. It closes both places of its block, so what an earlier block
/// left there never comes back.
pub(crate) fn write_entry<B: Bank>(bank: &mut B, slot: u8, block: &Block) -> Result<(), BankFault>
    requires { CanHold B.Bank bank.old slot block.now }
    ensures done { OnOk result (B.tells → block_in (told_at (B.now bank.new) slot) ≡ Some block.now) }
    ensures none { OnOk result (B.tells → turned_in (B.now bank.new) slot ≡ None) }
    ensures len { length (entry_tail block.now) ≡ 63 }
    ensures writes { Writes B.Bank bank.old bank.new (tail_place slot) (entry_tail block.now) (HasFlags false false) result }
{
    write(
        bank,
        gate_place(slot) + 1,
        &entry_bytes(block),
        false,
        false,
    )
}

/// Writes the turn byte of a place, which makes that place show.
fn write_turn<B: Bank>(bank: &mut B, slot: u8, place: Place, turn: Turn) -> Result<(), BankFault>
    requires within { slot < slot_count }
    requires room { bank_size ≤ B.size bank.old }
    ensures writes { Writes B.Bank bank.old bank.new (turn_place slot place) (byte_of turn ∷ []) (HasFlags true false) result }
{
    write(
        bank,
        turn_place(slot, place),
        &[turn_byte(turn)],
        true,
        false,
    )
}

/// Writes head and image, as a place has them, into a place of a block.
fn write_place<B: Bank>(
    bank: &mut B,
    block: &Block,
    place: Place,
    place_bytes: &[u8],
) -> Result<(), BankFault>
    requires right { is_right block.now ≡ true }
    requires size { length place_bytes.now ≡ head_len + block.now.size }
    requires room { bank_size ≤ B.size bank.old }
    ensures writes { Writes B.Bank bank.old bank.new (place_at block.now place) place_bytes.now (HasFlags false false) result }
{
    write(bank, place_offset(block, place), place_bytes, false, false)
}

/// Copies an image that was spelled into its block: into the place that doesn't show, and then that place's turn byte, by
/// which it shows.
fn write_spelled<B: Bank>(
    bank: &mut B,
    slot: u8,
    block: &Block,
    place_bytes: &[u8],
) -> Result<(), BankFault>
    requires can { CanHold B.Bank bank.old slot block.now }
    requires size { length place_bytes.now ≡ head_len + block.now.size }
    ensures copies { CopiesBytes B.Bank bank.old bank.new slot block.now place_bytes.now result }
{
    let turns = read_turns(bank, slot)?;
    let place = turns.hidden();
    match write_place(bank, block, place, place_bytes) {
        Ok(()) => write_turn(bank, slot, place, turns.opened()),
        Err(fault) => Err(fault),
    }
}

/// Copies an image into its block: head and image in one write into the place that doesn't show, and then its turn byte.
/// They are spelled in `room`.
pub(crate) fn write_image<B: Bank>(
    bank: &mut B,
    slot: u8,
    block: &Block,
    image: &Checked<'_>,
    room: &mut [u8],
) -> Result<(), BankFault>
    requires can { CanHold B.Bank bank.old slot block.now }
    requires size { length image.now ≡ block.now.size }
    requires room { length room.old ≡ 16392 }
    ensures check { check16 image.now < 2 ^ 16 }
    ensures copies { CopiesBytes B.Bank bank.old bank.new slot block.now (spelled block.now.size image.now) result }
{
    let place_bytes = &mut room[..HEAD_LENGTH as usize + image.bytes().len()];
    spell(place_bytes, image);
    write_spelled(bank, slot, block, place_bytes)
}

//! A block in the bank: two places, each with a head of 8 bytes and those of an image, of which one shows at most.

ghost use Rattle.std.specs.Prelude.{◌≡◌, ◌+◌, ◌<◌, ◌≤◌, ◌^◌, Some, true, false, length, take, IfOk};
ghost use Rattle.tbl_kinds.specs.Check.{check16};
ghost use Rattle.tbl_kinds.specs.Places.{bank_size};
ghost use Rattle.cds_layout.specs.Directory.{is_first_version};
ghost use Rattle.cds_layout.specs.Entries.{slot_count, is_right};
ghost use Rattle.cds_layout.specs.Images.{block_head, spelled, is_whole, shown_in};
ghost use Rattle.cds_layout.specs.Looks.{OnlyReads, Looks, LookAsks, ending, restore_ending};
ghost use Rattle.cds_layout.specs.Order.{turn_calls, place_calls, restore_calls, first_calls};
ghost use Rattle.cds_layout.specs.Restores.{Fits, AreTurns, TellsHeld, words, compared, is_whole_place};
ghost use Rattle.cds_layout.specs.declared.turns.Place.TheVariants as place;

use crate::places::{HEAD_LENGTH, place_offset, turns_place};
use crate::turns::{Place, Turns};
use check_word::{Checked, check16};
use tbl_kinds::{Block, u16_at, u32_at};
use tbl_outside::{Bank, Failed};
use thiserror::Error;

/// Why a block gave no image.
#[derive(Clone, Copy, Debug, PartialEq, Eq, Error)]
pub enum RestoreFault {
    /// No place shows: no copy was completed since the block was made.
    #[error("the block has no image")]
    NoImage,
    /// The head and the bytes of the place that shows aren't of one image.
    #[error("the block is torn")]
    Torn {
        /// The length that the head states.
        length: u32,
        /// The check word that the head states.
        kept: u16,
        /// The check word of the bytes.
        found: u16,
    },
    /// The bank failed.
    #[error("the bank failed")]
    Fault,
}

impl RestoreFault {
    /// What is told of a block that was read and gave no image: 0 where no place shows, else the check word of its head times
    /// 65,536, plus that of its bytes. None where the bank failed.
    pub fn words(&self) -> Option<u32>
        ensures { result ≡ words self.now }
    {
        match self {
            RestoreFault::NoImage => Some(0),
            RestoreFault::Torn { kept, found, .. } => {
                Some(u32::from(*kept) * 65_536 + u32::from(*found))
            }
            RestoreFault::Fault => None,
        }
    }
}

/// The head of a place whose image has this length and this check word: both with the high byte first, and two zeros.
#[tactic(auto, unfolding(crate::specs::Images::block_head))]
pub fn head_bytes(length: u32, word: u16) -> [u8; 8]
    ensures { result ≡ block_head length word }
{
    let [a, b, c, d] = length.to_be_bytes();
    let [e, f] = word.to_be_bytes();
    [a, b, c, d, e, f, 0, 0]
}

/// Spells an image as it stands in a place: its head, and then its bytes.
#[tactic(auto, unfolding(crate::specs::Images::spelled, crate::specs::Images::block_head))]
pub fn spell(room: &mut [u8], image: &Checked<'_>)
    requires room { length room.old ≡ 8 + length image.now }
    requires small { length image.now ≤ 16384 }
    ensures spelled { room.new ≡ spelled (length image.now) image.now }
    ensures check { check16 image.now < 2 ^ 16 }
{
    let bytes = image.bytes();
    let head = head_bytes(bytes.len() as u32, image.word());
    room[..8].copy_from_slice(&head);
    room[8..].copy_from_slice(bytes);
}

/// Whether a head and bytes that were read are of one image.
fn compare(head: &[u8], size: u32, bytes: &[u8]) -> Result<(), RestoreFault>
    requires { length head.now ≡ 8 }
    ensures { result ≡ compared head.now size bytes.now }
{
    let length = u32_at(head, 0);
    let kept = u16_at(head, 4);
    let found = check16(bytes);
    if length == size && kept == found {
        Ok(())
    } else {
        Err(RestoreFault::Torn {
            length,
            kept,
            found,
        })
    }
}

/// Reads the two turn bytes of a slot's block.
pub fn read_turns<B: Bank>(bank: &mut B, slot: u8) -> Result<Turns, Failed>
    requires within { slot < slot_count }
    requires bank { bank_size ≤ B.size bank.old }
    ensures turns { IfOk result (λ turns. B.tells → AreTurns (B.now bank.old) slot turns) }
    ensures reads { OnlyReads B.Bank bank.old bank.new (ending result) }
    ensures bank_calls { LookAsks B.Bank bank.old bank.new (turn_calls slot) (ending result) }
{
    let mut bytes = [0; 2];
    bank.read_at(turns_place(slot), &mut bytes)?;
    let [first, second] = bytes;
    Ok(Turns::of(first, second))
}

/// Reads what a place of a block holds: its head and then its bytes. After a fault `into` is left open.
pub(crate) fn read_place<B: Bank>(
    bank: &mut B,
    block: &Block,
    place: Place,
    into: &mut [u8],
) -> Result<(), RestoreFault>
    requires fits { Fits B.Bank bank.old block.now into.old }
    ensures tells { TellsHeld B.Bank bank.old block.now (Some place) into.new result }
    ensures looks { Looks B.Bank bank.old bank.new (place_calls block.now (Some place)) (restore_ending result) }
{
    let at = place_offset(block, place);
    let mut head = [0; 8];
    if bank.read_at(at, &mut head).is_err() {
        return Err(RestoreFault::Fault);
    }
    if bank.read_at(at + HEAD_LENGTH, into).is_err() {
        return Err(RestoreFault::Fault);
    }
    compare(&head, block.size, into)
}

/// Reads what the place of a block that shows holds.
pub(crate) fn read_shown<B: Bank>(
    bank: &mut B,
    block: &Block,
    shown: Option<Place>,
    into: &mut [u8],
) -> Result<(), RestoreFault>
    requires fits { Fits B.Bank bank.old block.now into.old }
    ensures tells { TellsHeld B.Bank bank.old block.now shown into.new result }
    ensures looks { Looks B.Bank bank.old bank.new (place_calls block.now shown) (restore_ending result) }
{
    match shown {
        Some(place) => read_place(bank, block, place, into),
        None => Err(RestoreFault::NoImage),
    }
}

/// Reads what the block of a slot holds, in a store of two places a block: its two turn bytes, and then the head and the bytes
/// of the place that shows. After a fault `into` is left open.
pub fn read_block<B: Bank>(
    bank: &mut B,
    slot: u8,
    block: &Block,
    into: &mut [u8],
) -> Result<(), RestoreFault>
    requires fits { Fits B.Bank bank.old block.now into.old }
    requires within { slot < slot_count }
    requires version { B.tells → is_first_version (B.now bank.old) ≡ false }
    ensures tells { TellsHeld B.Bank bank.old block.now (shown_in (B.now bank.old) slot) into.new result }
    ensures looks { Looks B.Bank bank.old bank.new (restore_calls (B.now bank.old) slot block.now) (restore_ending result) }
{
    match read_turns(bank, slot) {
        Ok(turns) => read_shown(bank, block, turns.shown(), into),
        Err(Failed) => Err(RestoreFault::Fault),
    }
}

/// Whether the bytes of a place, of which there are so many, are whole.
fn is_whole(bytes: &[u8], size: u32, end: usize) -> bool
    requires end { end ≡ 8 + size }
    requires within { end ≤ length bytes.now }
    ensures { result ≡ is_whole_place size (take end bytes.now) }
{
    compare(&bytes[..8], size, &bytes[8..end]).is_ok()
}

/// Whether the first place of a block is whole. Head and image are read at once, into the front of `room`.
pub fn read_first<B: Bank>(bank: &mut B, block: &Block, room: &mut [u8]) -> Result<bool, Failed>
    requires room { length room.old ≡ 16392 }
    requires right { is_right block.now ≡ true }
    requires bank { bank_size ≤ B.size bank.old }
    ensures whole { IfOk result (λ whole. B.tells → whole ≡ is_whole (B.now bank.old) block.now place.First) }
    ensures reads { OnlyReads B.Bank bank.old bank.new (ending result) }
    ensures bank_calls { LookAsks B.Bank bank.old bank.new (first_calls block.now) (ending result) }
{
    let end = 8 + block.size as usize;
    bank.read_at(block.offset, &mut room[..end])?;
    Ok(is_whole(room, block.size, end))
}

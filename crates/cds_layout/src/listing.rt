//! A look into a bank: the text of the store that it holds.

ghost use Rattle.std.specs.Prelude.{◌≡◌, ◌<◌, ◌≤◌, [], ◌∷◌, ◌++◌, None, true, is_some, length, replicate, slice_index_or, IfOk, OnOk};
ghost use Rattle.tbl_kinds.specs.Places.{bank_size};
ghost use Rattle.tbl_kinds.specs.StoreSteps.{stored_at};
ghost use Rattle.tbl_outside.specs.BankCalls.{read};
ghost use Rattle.cds_layout.specs.Entries.{slot_count, is_right};
ghost use Rattle.cds_layout.specs.Directory.{directory_len};
ghost use Rattle.cds_layout.specs.Fronts.{WasReadOf};
ghost use Rattle.cds_layout.specs.Images.{held_by, store_of};
ghost use Rattle.cds_layout.specs.Looks.{Looks, ending, text_ending};
ghost use Rattle.cds_layout.specs.Order.{look_at, looked_to, place_calls, text_calls};
ghost use Rattle.cds_layout.specs.Texts.{lines_from, text_of};
ghost use Rattle.cds_layout.specs.Lines.{line_at, last_line_of};

use crate::blocks::{RestoreFault, read_shown};
use crate::directory::{Directory, shown_place};
use crate::front::read_front;
use crate::places::{BLOCKS_BEGIN, MOST_IMAGE, SLOTS};
use crate::text::{count_of, put_last_line, put_line, room_of};
use crate::turns::Place;
use std::alloc::{AllocError, Global};
use tbl_kinds::{Block, Bytes, Memory};
use tbl_outside::{Bank, Failed};
use thiserror::Error;

/// Why there is no text.
#[derive(Clone, Copy, Debug, PartialEq, Eq, Error)]
pub enum TextFault {
    /// The bank failed.
    #[error("the bank failed")]
    Fault,
    /// Memory ran out.
    #[error("out of memory")]
    Memory,
}

impl From<Memory> for TextFault {
    ghost use Rattle.std.specs.Prelude.{◌≡◌};
    ghost use Rattle.cds_layout.specs.declared.listing.TextFault.TheVariants as fault;

    ghost from_gives = { λ _ e. e ≡ fault.Memory };

    fn from(_memory: Memory) -> TextFault {
        TextFault::Memory
    }
}

impl From<AllocError> for TextFault {
    ghost use Rattle.std.specs.Prelude.{◌≡◌};
    ghost use Rattle.cds_layout.specs.declared.listing.TextFault.TheVariants as fault;

    ghost from_gives = { λ _ e. e ≡ fault.Memory };

    fn from(_error: AllocError) -> TextFault {
        TextFault::Memory
    }
}

impl From<Failed> for TextFault {
    ghost use Rattle.std.specs.Prelude.{◌≡◌};
    ghost use Rattle.cds_layout.specs.declared.listing.TextFault.TheVariants as fault;

    ghost from_gives = { λ _ e. e ≡ fault.Fault };

    fn from(_failed: Failed) -> TextFault {
        TextFault::Fault
    }
}

fn zeros(alloc: Global, len: usize) -> Result<Vec<u8>, AllocError>
    ensures { IfOk result (λ v. v.items ≡ replicate len 0) }
{
    vec![in alloc; 0; len]
}

/// The first bytes of a bank, and the directory that they tell.
#[derive(Drop)]
struct Front {
    bytes: Vec<u8>,
    directory: Directory,
}

/// Whether the place of a block that shows is whole. What it holds is read into the front of `image`.
fn is_whole<B: Bank>(
    bank: &mut B,
    block: &Block,
    shown: Option<Place>,
    image: &mut [u8],
) -> Result<bool, Failed>
    requires image { length image.old ≡ 16384 }
    requires right { is_right block.now ≡ true }
    requires bank { bank_size ≤ B.size bank.old }
    ensures whole { IfOk result (λ whole. B.tells → whole ≡ is_some (held_by (B.now bank.old) block.now shown)) }
    ensures looks { Looks B.Bank bank.old bank.new (place_calls block.now shown) (ending result) }
{
    let size = block.size as usize;
    match read_shown(bank, block, shown, &mut image[..size]) {
        Ok(()) => Ok(true),
        Err(RestoreFault::NoImage) => Ok(false),
        Err(RestoreFault::Torn { .. }) => Ok(false),
        Err(RestoreFault::Fault) => Err(Failed),
    }
}

/// Appends the line of a slot, or nothing where it has no block.
fn put_slot<B: Bank>(
    bank: &mut B,
    front: &Front,
    slot: u8,
    image: &mut [u8],
    out: &mut Bytes,
) -> Result<(), TextFault>
    requires image { length image.old ≡ 16384 }
    requires within { slot < slot_count }
    requires front { WasReadOf B.Bank bank.old front.now }
    ensures text { OnOk result (B.tells → out.new.list ≡ out.old.list ++ line_at slot (stored_at (store_of (B.now bank.old)) slot)) }
    ensures looks { Looks B.Bank bank.old bank.new (look_at (B.now bank.old) slot (slice_index_or front.now.directory slot None)) (text_ending result) }
{
    match front.directory.slot(slot) {
        None => Ok(()),
        Some(block) => {
            let whole = is_whole(bank, block, shown_place(&front.bytes, slot), image)?;
            put_line(out, slot, block, whole)?;
            Ok(())
        }
    }
}

/// Appends the lines of all slots.
fn put_slots<B: Bank>(
    bank: &mut B,
    front: &Front,
    image: &mut [u8],
    out: &mut Bytes,
) -> Result<(), TextFault>
    requires image { length image.old ≡ 16384 }
    requires front { WasReadOf B.Bank bank.old front.now }
    ensures text { OnOk result (B.tells → out.new.list ≡ out.old.list ++ lines_from 0 (store_of (B.now bank.old))) }
    ensures looks { Looks B.Bank bank.old bank.new (looked_to slot_count (B.now bank.old) front.now.directory) (text_ending result) }
{
    for slot in 0..SLOTS {
        put_slot(bank, front, slot, image, out)?;
    }
    Ok(())
}

/// Appends the line for all blocks.
fn put_summary(out: &mut Bytes, directory: &Directory) -> Result<(), Memory>
    ensures { OnOk result (out.new.list ≡ out.old.list ++ last_line_of directory.now) }
{
    let places = directory.places();
    put_last_line(out, count_of(places), room_of(places))
}

/// Reads the first bytes of a bank, and the directory that they tell.
fn load_front<B: Bank>(alloc: Global, bank: &mut B) -> Result<Front, TextFault>
    requires { bank_size ≤ B.size bank.old }
    ensures front { IfOk result (WasReadOf B.Bank bank.new) }
    ensures looks { Looks B.Bank bank.old bank.new (read 0 directory_len ∷ []) (text_ending result) }
{
    let mut directory = Directory::make(alloc)?;
    let mut bytes = zeros(alloc, BLOCKS_BEGIN as usize)?;
    read_front(bank, &mut bytes, &mut directory)?;
    Ok(Front { bytes, directory })
}

/// The lines of all slots, and the line for all blocks.
fn listed<B: Bank>(alloc: Global, bank: &mut B, front: &Front) -> Result<Bytes, TextFault>
    requires front { WasReadOf B.Bank bank.old front.now }
    ensures text { IfOk result (λ text. B.tells → text.list ≡ text_of (store_of (B.now bank.old))) }
    ensures looks { Looks B.Bank bank.old bank.new (looked_to slot_count (B.now bank.old) front.now.directory) (text_ending result) }
{
    let mut image = zeros(alloc, MOST_IMAGE as usize)?;
    let mut out = Bytes::make(alloc, 0)?;
    put_slots(bank, front, &mut image, &mut out)?;
    put_summary(&mut out, &front.directory)?;
    Ok(out)
}

/// The text of the store in a bank: a line for each open block, by slot, with its slot, its offset, its size, T for a
/// table's and A for an application's, its full name and whether it is whole or torn, and at the end `blocks N free M`
/// with the number of blocks and the bytes after the directory that none of their first places takes. Of a store of the first version,
/// in which a block had one place, it tells the same. The bank is read and not written.
pub fn store_text<B: Bank>(alloc: Global, bank: &mut B) -> Result<Bytes, TextFault>
    requires { bank_size ≤ B.size bank.old }
    ensures text { IfOk result (λ text. B.tells → text.list ≡ text_of (store_of (B.now bank.old))) }
    ensures looks { Looks B.Bank bank.old bank.new (text_calls (B.now bank.old)) (text_ending result) }
{
    let front = load_front(alloc, bank)?;
    listed(alloc, bank, &front)
}

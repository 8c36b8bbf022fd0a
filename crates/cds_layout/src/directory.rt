//! The directory of the store: which blocks its 128 entries tell.

ghost use Rattle.std.specs.Prelude.{◌≡◌, ◌+◌, ◌<◌, ℕ, None, length, replicate, slice_index_or, IfOk};
ghost use Rattle.std.specs.List.{list_all};
ghost use Rattle.std.specs.Option.{option_copied};
ghost use Rattle.tbl_kinds.specs.Places.{are_apart};
ghost use Rattle.tbl_kinds.specs.StoreSteps.{same_block};
ghost use Rattle.cds_layout.specs.Entries.{slot_count, gate_at};
ghost use Rattle.cds_layout.specs.Images.{shown_in};
ghost use Rattle.cds_layout.specs.Directory.{directory_len, is_live, is_first_version, agree, agrees_at, stated, counted, directory_to, directory_of};

use crate::entry::{TOLD_LENGTH, block_in};
use crate::places::{
    FIRST_VERSION, GATE_OPEN, LIVE_MARK, SLOTS, VERSION_PLACE, end_of, gate_place, turns_place,
};
use crate::turns::{Place, Turns};
use std::alloc::{AllocError, Global};
use std::marker::Model;
use tbl_kinds::{Block, Memory};

/// How many slots there are.
const SLOT_COUNT: usize = SLOTS as usize;

/// The open blocks, each in the slot of its entry.
#[derive(Drop)]
pub struct Directory {
    blocks: Vec<Option<Block>>,
}

impl Model for Directory {
    ghost use Rattle.std.specs.Prelude.{◌≡◌, List, Option, length};
    ghost use Rattle.tbl_kinds.specs.declared.block.Block.{Block};

    ghost Value = { List (Option Block) };

    ghost view = { λ d. d.blocks.items };

    ghost invariant = { λ d. length d.blocks.items ≡ 128 };
}

fn no_blocks(alloc: Global) -> Result<Vec<Option<Block>>, AllocError>
    ensures { IfOk result (λ v. v.items ≡ replicate 128 None) }
{
    let mut blocks = Vec::with_capacity(alloc, SLOT_COUNT)?;
    for _slot in 0..SLOT_COUNT {
        blocks.push(None)?;
    }
    Ok(blocks)
}

impl Directory {
    /// A directory without blocks. All memory that it needs is taken here.
    pub fn make(alloc: Global) -> Result<Directory, Memory>
        ensures { IfOk result (λ d. d ≡ replicate 128 None) }
    {
        Ok(Directory {
            blocks: no_blocks(alloc)?,
        })
    }

    /// The places of the blocks, by slot.
    pub(crate) fn places(&self) -> &[Option<Block>]
        ensures places { result.now ≡ self.now }
        ensures slots { length result.now ≡ 128 }
    {
        self.blocks.as_slice()
    }

    /// The open block of a slot. Past slot 127 there is none.
    pub fn slot(&self, slot: u8) -> Option<&Block>
        ensures { option_copied result ≡ slice_index_or self.now slot None }
    {
        match self.blocks.get(slot as usize) {
            Some(Some(block)) => Some(block),
            _ => None,
        }
    }
}

/// Whether two blocks have no byte in common.
fn are_apart(a: &Block, b: &Block) -> bool
    ensures { result ≡ are_apart a.now.offset a.now.size b.now.offset b.now.size }
{
    let a_end = end_of(a.offset, a.size);
    let b_end = end_of(b.offset, b.size);
    a_end <= u64::from(b.offset) || b_end <= u64::from(a.offset)
}

/// Whether two blocks have one kind and one name.
fn same_block(a: &Block, b: &Block) -> bool
    ensures { result ≡ same_block a.now b.now }
{
    a.kind == b.kind && a.name.bytes() == b.name.bytes()
}

/// Whether two blocks can be there together.
fn agree(a: &Block, b: &Block) -> bool
    ensures { result ≡ agree a.now b.now }
{
    are_apart(a, b) && !same_block(a, b)
}

/// Whether a block can be there beside the one of a slot.
fn agrees_at(block: &Block, other: &Option<Block>) -> bool
    ensures { result ≡ agrees_at block.now other.now }
{
    match other {
        None => true,
        Some(other) => agree(block, other),
    }
}

/// Whether a block can be there beside all of these.
fn agrees_with_all(block: &Block, earlier: &[Option<Block>]) -> bool
    ensures { result ≡ list_all (agrees_at block.now) earlier.now }
{
    earlier.iter().all(|other| agrees_at(block, other))
}

/// What the entry of a slot states: a block, where its gate is open and it tells one.
fn stated(bytes: &[u8], slot: u8) -> Option<Block>
    requires len { length bytes.now ≡ directory_len }
    requires slot { slot < slot_count }
    ensures { result ≡ stated bytes.now slot }
{
    let place = gate_place(slot) as usize;
    if bytes[place] == GATE_OPEN {
        block_in(&bytes[place + 1..place + 1 + TOLD_LENGTH])
    } else {
        None
    }
}

/// What is stated counts where it agrees with each earlier block that counts.
fn counted(earlier: &[Option<Block>], stated: Option<Block>) -> Option<Block>
    ensures { result ≡ counted earlier.now stated }
{
    let block = stated?;
    if agrees_with_all(&block, earlier) {
        Some(block)
    } else {
        None
    }
}

/// Whether the bank is live: it begins with the live mark.
pub fn is_live(bytes: &[u8]) -> bool
    requires { length bytes.now ≡ directory_len }
    ensures { result ≡ is_live bytes.now }
{
    &bytes[..3] == LIVE_MARK.as_slice()
}

/// Whether a live bank is of the first version, in which each block has one place.
pub fn is_first_version(bytes: &[u8]) -> bool
    requires { length bytes.now ≡ directory_len }
    ensures { result ≡ is_first_version bytes.now }
{
    bytes[VERSION_PLACE as usize] == FIRST_VERSION
}

/// The place that shows of a slot's block, by the first bytes of the bank.
pub(crate) fn shown_place(bytes: &[u8], slot: u8) -> Option<Place>
    requires len { length bytes.now ≡ directory_len }
    requires slot { slot < slot_count }
    ensures { result ≡ shown_in bytes.now slot }
{
    if is_first_version(bytes) {
        return Some(Place::First);
    }
    let place = turns_place(slot) as usize;
    Turns::of(bytes[place], bytes[place + 1]).shown()
}

/// Takes all blocks out.
fn clear(blocks: &mut [Option<Block>])
    ensures { blocks.new ≡ replicate (length blocks.old) None }
{
    for place in blocks.iter_mut() {
        *place = None;
    }
}

/// Reads the entries of a live bank.
fn read_entries(bytes: &[u8], blocks: &mut [Option<Block>])
    requires len { length bytes.now ≡ directory_len }
    requires slots { length blocks.old ≡ slot_count }
    ensures { (count : ℕ) → count ≡ slot_count → blocks.new ≡ directory_to bytes.now count }
{
    for slot in 0..SLOTS {
        let place = slot as usize;
        let block = counted(&blocks[..place], stated(bytes, slot));
        blocks[place] = block;
    }
}

fn read_blocks(bytes: &[u8], blocks: &mut Vec<Option<Block>>)
    requires len { length bytes.now ≡ directory_len }
    requires slots { length blocks.old.items ≡ slot_count }
    ensures { blocks.new.items ≡ directory_of bytes.now }
{
    if is_live(bytes) {
        read_entries(bytes, blocks);
    } else {
        clear(blocks);
    }
}

/// Reads the directory from the first bytes of the bank: the live mark `CDS`, the version, twelve bytes that aren't looked at, and
/// 128 entries of 64 bytes. An entry counts where its gate is open, it tells a block that lies after the directory and
/// inside the bank, and no earlier one that counts has a byte in common with it, or its kind and name. In a bank that
/// isn't live none counts. It takes no memory.
pub fn read_directory(bytes: &[u8], into: &mut Directory)
    requires { length bytes.now ≡ directory_len }
    ensures { into.new ≡ directory_of bytes.now }
{
    read_blocks(bytes, &mut into.blocks);
}

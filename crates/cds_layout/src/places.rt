//! Where things stand in the bank, and how much room there is, in bytes.

ghost use Rattle.std.specs.Prelude.{◌≡◌, ◌+◌, ◌<◌, ◌≤◌, ◌^◌};
ghost use Rattle.tbl_kinds.specs.Places.{end_of, blocks_end};
ghost use Rattle.cds_layout.specs.Entries.{slot_count, gate_place, turns_place, turn_place};
ghost use Rattle.cds_layout.specs.Images.{place_at};

use crate::turns::Place;
use tbl_kinds::Block;

/// How many bytes a bank must have.
pub const BANK_SIZE: u32 = 262_144;

/// The live mark, with which a live bank begins.
pub const LIVE_MARK: [u8; 3] = *b"CDS";

/// Where the version stands, after the live mark.
pub const VERSION_PLACE: u32 = 3;

/// The version of a store in which each block has one place. Any other byte is that of one with two places.
pub const FIRST_VERSION: u8 = b'1';

/// The version that is written.
pub const VERSION: u8 = b'2';

/// Where the entries begin, after the live mark and twelve zeros.
pub const ENTRIES_PLACE: u32 = 16;

/// How many entries there are, one for each slot.
pub const SLOTS: u8 = 128;

/// How many bytes an entry has: its gate, and the bytes after it.
const ENTRY_LENGTH: u32 = 64;

/// The turn bytes in an entry.
const TURNS_OFFSET: u32 = 52;

/// The gate byte of an entry whose block is open.
pub const GATE_OPEN: u8 = 0xA5;

/// The gate byte of an entry that was closed. Any other than that of an open one is closed too.
pub const GATE_CLOSED: u8 = 0;

/// Where the blocks begin, after the entries.
pub const BLOCKS_BEGIN: u32 = 8_208;

/// Where the first places of blocks end.
pub const BLOCKS_END: u32 = 131_072;

/// How far the second place of a block lies from the first.
const BETWEEN_PLACES: u32 = 131_072;

/// The length of a place's head.
pub const HEAD_LENGTH: u32 = 8;

/// The greatest size of an image, that of a table (`CFE_PLATFORM_TBL_MAX_SNGL_TABLE_SIZE`).
pub const MOST_IMAGE: u32 = 16_384;

/// Where the entry of a slot begins, with its gate.
pub fn gate_place(slot: u8) -> u32
    requires { slot < slot_count }
    ensures { result ≡ gate_place slot }
{
    ENTRIES_PLACE + ENTRY_LENGTH * u32::from(slot)
}

/// How many bytes the largest place has, its head included.
pub const MOST_PLACE: u32 = 16_392;

/// Where the two turn bytes of a slot's block stand, in its entry.
pub fn turns_place(slot: u8) -> u32
    requires { slot < slot_count }
    ensures { result ≡ turns_place slot }
{
    gate_place(slot) + TURNS_OFFSET
}

/// Where the turn byte of a place stands.
pub fn turn_place(slot: u8, place: Place) -> u32
    requires { slot < slot_count }
    ensures { result ≡ turn_place slot place }
{
    match place {
        Place::First => turns_place(slot),
        Place::Second => turns_place(slot) + 1,
    }
}

/// Where a place of a block begins.
pub fn place_offset(block: &Block, place: Place) -> u32
    requires { end_of block.now.offset block.now.size ≤ blocks_end }
    ensures { result ≡ place_at block.now place }
{
    match place {
        Place::First => block.offset,
        Place::Second => block.offset + BETWEEN_PLACES,
    }
}

/// What a block with an image of this size takes, its head included.
pub fn room_for(size: u32) -> u64
    ensures room { result ≡ 8 + size }
    ensures within { result < 2 ^ 33 }
{
    u64::from(HEAD_LENGTH) + u64::from(size)
}

/// Where a block at this offset ends.
pub fn end_of(offset: u32, size: u32) -> u64
    ensures end { result ≡ end_of offset size }
    ensures within { result < 2 ^ 34 }
{
    u64::from(offset) + room_for(size)
}

//! The store as text, for whoever looks into a bank.

ghost use Rattle.std.specs.Prelude.{◌≡◌, ◌+◌, ◌-◌, ◌<◌, ◌^◌, ◌++◌, is_some, count_by, length, codes, OnOk};
ghost use Rattle.std.specs.List.{sum_by};
ghost use Rattle.std.specs.Fmt.{decimal};
ghost use Rattle.tbl_kinds.specs.Places.{blocks_begin, blocks_end};
ghost use Rattle.cds_layout.specs.Entries.{slot_count};
ghost use Rattle.cds_layout.specs.Texts.{kind_letter};
ghost use Rattle.cds_layout.specs.Lines.{word_of, told_line, last_line, room_at};

use crate::places::{BLOCKS_BEGIN, BLOCKS_END, room_for};
use plain_text::{append_decimal, append_text};
use tbl_kinds::{Block, BlockKind, Bytes, Memory};

/// How many bytes there are for blocks, after the directory.
const ROOM: u64 = (BLOCKS_END - BLOCKS_BEGIN) as u64;

fn kind_letter(kind: BlockKind) -> &'static [u8]
    ensures { result.now ≡ kind_letter kind }
{
    match kind {
        BlockKind::Table => b"T",
        BlockKind::App => b"A",
    }
}

fn state_word(whole: bool) -> &'static [u8]
    ensures { result.now ≡ word_of whole }
{
    if whole { b"whole" } else { b"torn" }
}

/// Appends the line of a block: slot, offset, size, T for a table and A for an application, full name, whole or torn.
pub(crate) fn put_line(out: &mut Bytes, slot: u8, block: &Block, whole: bool) -> Result<(), Memory>
    ensures { OnOk result (out.new.list ≡ out.old.list ++ told_line slot block.now whole) }
{
    append_decimal(out, u64::from(slot))?;
    append_text(out, b" ")?;
    append_decimal(out, u64::from(block.offset))?;
    append_text(out, b" ")?;
    append_decimal(out, u64::from(block.size))?;
    append_text(out, b" ")?;
    append_text(out, kind_letter(block.kind))?;
    append_text(out, b" ")?;
    append_text(out, block.name.bytes())?;
    append_text(out, b" ")?;
    append_text(out, state_word(whole))?;
    append_text(out, b"\n")?;
    Ok(())
}

/// How many bytes the block of a slot takes, its head included.
fn room_at(place: &Option<Block>) -> u64
    ensures room { result ≡ room_at place.now }
    ensures within { result < 2 ^ 33 }
{
    match place {
        None => 0,
        Some(block) => room_for(block.size),
    }
}

/// How many bytes the blocks take, their heads included.
pub(crate) fn room_of(blocks: &[Option<Block>]) -> u64
    requires { length blocks.now ≡ slot_count }
    ensures { result ≡ sum_by room_at blocks.now }
{
    let mut room = 0;
    for place in blocks {
        room += room_at(place);
    }
    room
}

pub(crate) fn count_of(blocks: &[Option<Block>]) -> u64
    ensures { result ≡ count_by is_some blocks.now }
{
    blocks.iter().filter(|place| place.is_some()).count() as u64
}

/// Appends the last line: how many blocks there are, and how many bytes they leave.
pub(crate) fn put_last_line(out: &mut Bytes, count: u64, room: u64) -> Result<(), Memory>
    ensures { OnOk result (out.new.list ≡ out.old.list ++ last_line count room) }
{
    append_text(out, b"blocks ")?;
    append_decimal(out, count)?;
    append_text(out, b" free ")?;
    append_decimal(out, ROOM.saturating_sub(room))?;
    append_text(out, b"\n")?;
    Ok(())
}

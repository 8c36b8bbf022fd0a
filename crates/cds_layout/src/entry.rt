//! Directory entries: a gate byte, and 63 bytes that tell a block.

ghost use Rattle.std.specs.Prelude.{◌≡◌, length};
ghost use Rattle.std.specs.List.{list_all};
ghost use Rattle.tbl_kinds.specs.Names.{is_zero, name_in, name_field};
ghost use Rattle.tbl_kinds.specs.Heads.{is_name_field};
ghost use Rattle.tbl_kinds.specs.Places.{is_inside};
ghost use Rattle.cds_layout.specs.Entries.{told_len, kind_byte, entry_tail, is_right, kind_in, block_in};

use crate::places::{BLOCKS_BEGIN, BLOCKS_END, MOST_IMAGE, end_of};
use tbl_kinds::{Block, BlockKind, Name, Name40, u32_at};

/// How many bytes an entry has after its gate.
const TAIL_LENGTH: usize = 63;

/// How many of them tell its block.
pub(crate) const TOLD_LENGTH: usize = NAME_END;

/// The name field, after the kind, two zeros, the offset and the size.
const NAME_PLACE: usize = 11;

/// How many bytes the name field has.
const NAME_WIDTH: usize = 40;

/// Where the name field ends.
const NAME_END: usize = 51;

fn kind_byte(kind: BlockKind) -> u8
    ensures { result ≡ kind_byte kind }
{
    match kind {
        BlockKind::Table => 1,
        BlockKind::App => 2,
    }
}

fn kind_in(byte: u8) -> Option<BlockKind>
    ensures { result ≡ kind_in byte }
{
    match byte {
        1 => Some(BlockKind::Table),
        2 => Some(BlockKind::App),
        _ => None,
    }
}

/// A name field: the name, and then zeros.
fn name_field(name: &Name40) -> [u8; 40]
    ensures { result ≡ name_field 40 name.now }
{
    let mut field = [0; NAME_WIDTH];
    let bytes = name.bytes();
    field[..bytes.len()].copy_from_slice(bytes);
    field
}

/// The bytes of a new block's entry after the gate: the kind, two zeros, the offset and the size with the high byte first,
/// the full name, and zeros, by which both places are closed.
#[tactic(auto, unfolding(crate::specs::Entries::entry_tail))]
pub fn entry_bytes(block: &Block) -> [u8; 63]
    ensures { result ≡ entry_tail block.now }
{
    let kind = kind_byte(block.kind);
    let [a, b, c, d] = block.offset.to_be_bytes();
    let [e, f, g, h] = block.size.to_be_bytes();
    let mut tail = [0; TAIL_LENGTH];
    tail[..NAME_PLACE].copy_from_slice(&[kind, 0, 0, a, b, c, d, e, f, g, h]);
    tail[NAME_PLACE..NAME_END].copy_from_slice(&name_field(&block.name));
    tail
}

/// Whether all bytes are zero.
fn all_zero(bytes: &[u8]) -> bool
    ensures { result ≡ list_all is_zero bytes.now }
{
    bytes.iter().all(|byte| *byte == 0)
}

/// Whether all bytes of a field after its name are zero.
fn is_name_field(field: &[u8], name: &Name40) -> bool
    requires { name.now ≡ name_in field.now }
    ensures { result ≡ is_name_field field.now }
{
    let len = name.bytes().len();
    match field.get(len..) {
        Some(behind) => all_zero(behind),
        None => true,
    }
}

/// Whether a block with an image of this size can begin at this offset: after the directory and before the end of the blocks.
fn is_inside(offset: u32, size: u32) -> bool
    ensures { result ≡ is_inside offset size }
{
    BLOCKS_BEGIN <= offset && end_of(offset, size) <= u64::from(BLOCKS_END)
}

/// Whether it is a block that can be there.
fn is_right(block: &Block) -> bool
    ensures { result ≡ is_right block.now }
{
    let size = block.size;
    0 < size && size <= MOST_IMAGE && is_inside(block.offset, size) && block.name.is_name()
}

/// The block that the bytes after a gate tell. The zeros aren't looked at, but for those after the name.
#[tactic(auto, unfolding(crate::specs::Entries::block_in))]
pub(crate) fn block_in(tail: &[u8]) -> Option<Block>
    requires { length tail.now ≡ told_len }
    ensures { result ≡ block_in tail.now }
{
    let field = &tail[NAME_PLACE..NAME_END];
    let kind = kind_in(tail[0])?;
    let block = Block {
        kind,
        offset: u32_at(tail, 3),
        size: u32_at(tail, 7),
        name: Name::of(field),
    };
    if is_right(&block) && is_name_field(field, &block.name) {
        Some(block)
    } else {
        None
    }
}

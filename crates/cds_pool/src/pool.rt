ghost use Rattle.std.specs.Prelude.{◌≡◌, ◌+◌, ◌<◌, ◌^◌, IsTrue, IfSome, IfNone, None};
ghost use Rattle.std.specs.List.{list_all};
ghost use Rattle.tbl_kinds.specs.Places.{fits, place};
ghost use Rattle.cds_pool.specs.Places.{is_apart, lesser, NoneBelow, Never};

use cds_layout::{end_of, room_for};
use tbl_kinds::Block;

/// Where the blocks begin, after the directory.
const BLOCKS_BEGIN: u64 = cds_layout::BLOCKS_BEGIN as u64;

/// Where the blocks end.
const BLOCKS_END: u64 = cds_layout::BLOCKS_END as u64;

/// Whether a block of this size at this offset would have no byte in common with that block.
fn is_apart(size: u32, at: u64, block: &Block) -> bool
    requires { at < 2 ^ 34 }
    ensures { result ≡ is_apart size at block.now }
{
    at + room_for(size) <= u64::from(block.offset) || end_of(block.offset, block.size) <= at
}

/// Whether a block of this size at this offset would have no byte in common with any of these blocks.
fn all_apart(taken: &[Block], size: u32, at: u64) -> bool
    requires { at < 2 ^ 34 }
    ensures { result ≡ list_all (is_apart size at) taken.now }
{
    taken.iter().all(|block| is_apart(size, at, block))
}

/// Whether a block of this size can begin at this offset.
fn fits(taken: &[Block], size: u32, at: u64) -> bool
    requires { at < 2 ^ 34 }
    ensures { result ≡ fits taken.now size at }
{
    BLOCKS_BEGIN <= at && at + room_for(size) <= BLOCKS_END && all_apart(taken, size, at)
}

/// The lesser of the least offset so far and this one, where this one fits.
fn lesser(taken: &[Block], size: u32, least: Option<u64>, at: u64) -> Option<u64>
    requires { at < 2 ^ 34 }
    ensures { result ≡ lesser (fits taken.now size) least at }
{
    match least {
        None => {
            if fits(taken, size, at) {
                Some(at)
            } else {
                None
            }
        }
        Some(best) => {
            if best <= at {
                Some(best)
            } else if fits(taken, size, at) {
                Some(at)
            } else {
                Some(best)
            }
        }
    }
}

/// The least offset that fits among the first one and the ends of the blocks: a block can always be moved down until it
/// meets one of these.
fn least_place(taken: &[Block], size: u32) -> Option<u64>
    ensures found { IfSome result (λ at. IsTrue (fits taken.now size at)) }
    ensures within { IfSome result (λ at. at < 2 ^ 32) }
    ensures least { IfSome result (λ at. NoneBelow (fits taken.now size) at) }
    ensures none { IfNone result (Never (fits taken.now size)) }
{
    let mut least = lesser(taken, size, None, BLOCKS_BEGIN);
    for block in taken {
        least = lesser(taken, size, least, end_of(block.offset, block.size));
    }
    least
}

/// The least offset at which a block with an image of this size, with its head, lies inside the bank, after the directory
/// and apart from every block that is taken. None where there is none.
pub fn place(taken: &[Block], size: u32) -> Option<u32>
    ensures { result ≡ place taken.now size }
{
    match least_place(taken, size) {
        Some(at) => Some(at as u32),
        None => None,
    }
}

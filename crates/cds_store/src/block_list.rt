//! A list of blocks that takes no memory.

ghost use Rattle.std.specs.Prelude.{◌≡◌, ◌<◌, [], ◌∷◌, ◌++◌, length};

use cds_layout::SLOTS;
use std::array::from_fn;
use std::marker::Model;
use tbl_kinds::{Block, BlockKind, Name};

/// How many blocks there can be: as many as slots.
const ROOM: usize = SLOTS as usize;

/// At most 128 blocks, in their order. (`ArrayVec` asks for a default value, and no block is one.)
#[derive(Drop)]
pub(crate) struct BlockList {
    blocks: [Block; ROOM],
    count: usize,
}

impl Model for BlockList {
    ghost use Rattle.std.specs.Prelude.{◌≤◌, take};
    ghost use Rattle.cds_store.specs.Slots.{Listed};

    ghost Value = { Listed };

    ghost view = { λ l. record { items = take l.count l.blocks } };

    ghost invariant = { λ l. l.count ≤ 128 };
}

/// What is at a place that isn't used.
fn unused() -> Block {
    Block {
        kind: BlockKind::App,
        offset: 0,
        size: 0,
        name: Name::of(&[]),
    }
}

impl BlockList {
    /// No block.
    pub(crate) fn new() -> BlockList
        ensures { result.items ≡ [] }
    {
        BlockList {
            blocks: from_fn(|_| unused()),
            count: 0,
        }
    }

    /// Puts a block last.
    pub(crate) fn push(&mut self, block: Block)
        requires { length self.old.items < 128 }
        ensures { self.new.items ≡ self.old.items ++ block ∷ [] }
    {
        self.blocks[self.count] = block;
        self.count += 1;
    }

    /// The blocks.
    pub(crate) fn as_slice(&self) -> &[Block]
        ensures { result.now ≡ self.now.items }
    {
        &self.blocks[..self.count]
    }
}

// The writes that a bank in memory was asked for, with the bytes that were there before them.
ghost use Rattle.std.specs.Prelude.{◌≡◌, ◌<◌, ◌^◌, [], IfOk, IsTrue, length};
ghost use Rattle.tbl_fakes.specs.Past.{nothing_passed, fits, with_write};

use std::alloc::Global;
use std::marker::Model;
use tbl_kinds::{Bytes, Memory};

/// The range of a write: where it begins, and how many bytes it has.
#[derive(Clone, Copy, Debug, PartialEq, Eq)]
pub struct Span {
    pub at: u32,
    pub length: u32,
}

/// The ranges written, oldest first, and the bytes that were in each before, one after another; also the room that is left for further
/// writes and their bytes.
#[derive(Drop)]
pub(crate) struct Past {
    spans: Vec<Span>,
    olds: Bytes,
    writes: usize,
    room: usize,
}

impl Model for Past {
    ghost use Rattle.std.specs.Prelude.{◌+◌, ◌≤◌, vec_len, vec_capacity};
    ghost use Rattle.tbl_fakes.specs.Past.{PastParts, OldsKept};

    ghost Value = { PastParts };

    ghost view = { λ p. record { spans = p.spans.items; olds = p.olds.list; writes = p.writes; room = p.room } };

    ghost invariant = { λ p. (vec_len p.spans + p.writes ≤ vec_capacity p.spans)
        × (p.room ≤ p.olds.spare)
        × OldsKept p.spans.items p.olds.list };
}

impl Past {
    ghost use Rattle.tbl_fakes.specs.Past.{OldsKept};

    /// No write yet, and room for so many with so many bytes in all.
    pub(crate) fn make(alloc: Global, writes: u32, room: u32) -> Result<Past, Memory>
        ensures { IfOk result (λ p. p ≡ nothing_passed writes room) }
    {
        Ok(Past {
            spans: Vec::with_capacity(alloc, writes as usize)?,
            olds: Bytes::make(alloc, room as usize)?,
            writes: writes as usize,
            room: room as usize,
        })
    }

    /// Whether there is room for a write of so many bytes.
    pub(crate) fn has_room(&self, length: usize) -> bool
        ensures { result ≡ fits self.now length }
    {
        0 < self.writes && length <= self.room
    }

    /// Keeps the range of a write and the bytes that are in it.
    pub(crate) fn keep(&mut self, at: u32, old: &[u8])
        requires room { IsTrue (fits self.old (length old.now)) }
        requires size { length old.now < 2 ^ 32 }
        ensures kept { self.new ≡ with_write at old.now self.old }
        ensures whole { OldsKept self.old.spans self.old.olds }
    {
        let length = old.len() as u32;
        let _ = self.spans.push(Span { at, length });
        self.olds.append(old);
        self.writes -= 1;
        self.room -= old.len();
    }

    pub(crate) fn spans(&self) -> &[Span]
        ensures { result.now ≡ self.now.spans }
    {
        self.spans.as_slice()
    }
}

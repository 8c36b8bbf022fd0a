// Bytes that are read from the front.
ghost use Rattle.std.specs.Prelude.{◌≡◌};
ghost use Rattle.tbl_fakes.specs.Contents.{Moves};

use std::marker::Model;
use tbl_kinds::Bytes;

/// Bytes, and how many of them were read already.
#[derive(Drop)]
pub(crate) struct Supply {
    bytes: Bytes,
    at: usize,
}

impl Model for Supply {
    ghost use Rattle.std.specs.Prelude.{List, ℕ, ◌≤◌, length, drop};

    ghost Value = { List ℕ };

    ghost view = { λ s. drop s.at s.bytes.list };

    ghost invariant = { λ s. s.at ≤ length s.bytes.list };
}

impl Supply {
    pub(crate) fn of(bytes: Bytes) -> Supply
        ensures { result ≡ bytes.list }
    {
        Supply { bytes, at: 0 }
    }

    pub(crate) fn rest(&self) -> &[u8]
        ensures { result.now ≡ self.now }
    {
        &self.bytes.bytes()[self.at..]
    }

    /// Moves as many bytes as there are, or as the piece has, and no more than this many. It answers how many.
    pub(crate) fn fill_up_to(&mut self, into: &mut [u8], most: usize) -> usize
        ensures { Moves most into.old into.new self.old self.new result }
    {
        let rest = &self.bytes.bytes()[self.at..];
        let count = into.len().min(rest.len()).min(most);
        into[..count].copy_from_slice(&rest[..count]);
        self.at += count;
        count
    }
}

//! Bytes together with their check word.

ghost use Rattle.std.specs.Prelude.{◌≡◌};
ghost use Rattle.tbl_kinds.specs.Check.{check16};

use crate::check16;
use std::marker::Model;

/// Bytes and their check word, which was worked out once. A clause sees the bytes alone.
#[derive(Drop)]
pub struct Checked<'a> {
    bytes: &'a [u8],
    word: u16,
}

impl<'a> Model for Checked<'a> {
    ghost use Rattle.std.specs.Prelude.{◌≡◌, ℕ, List};
    ghost use Rattle.tbl_kinds.specs.Check.{check16};

    ghost Value = { List ℕ };

    ghost view = { λ c. c.bytes.now };

    ghost invariant = { λ c. c.word ≡ check16 c.bytes.now };
}

impl<'a> Checked<'a> {
    /// These bytes, whose check word is worked out now.
    pub fn of(bytes: &'a [u8]) -> Checked<'a>
        ensures { result ≡ bytes.now }
    {
        Checked {
            bytes,
            word: check16(bytes),
        }
    }

    /// These bytes, whose check word is known.
    pub fn known(bytes: &'a [u8], word: u16) -> Checked<'a>
        requires { word ≡ check16 bytes.now }
        ensures { result ≡ bytes.now }
    {
        Checked { bytes, word }
    }

    /// The bytes.
    pub fn bytes(&self) -> &'a [u8]
        ensures { result.now ≡ self.now }
    {
        self.bytes
    }

    /// Their check word.
    pub fn word(&self) -> u16
        ensures { result ≡ check16 self.now }
    {
        self.word
    }
}

//! The words of a line, what is made of them, and what any script may tell.

ghost use Rattle.std.specs.Prelude.{◌≡◌, IfOk};

use std::alloc::Global;
use std::io;
use std::str::SplitWhitespace;
use tbl_kinds::{Bytes, Memory};

/// What is left of a line, word by word.
#[derive(Drop)]
pub(crate) struct Words<'a> {
    left: SplitWhitespace<'a>,
}

impl<'a> Words<'a> {
    pub(crate) fn of(line: &'a str) -> Words<'a> {
        Words {
            left: line.split_whitespace(),
        }
    }

    /// The next word, or one without letters.
    pub(crate) fn next(&mut self) -> &'a str {
        self.left.next().unwrap_or("")
    }

    /// The next word as a number, or 0.
    pub(crate) fn number(&mut self) -> u32 {
        self.next().parse::<u32>().unwrap_or(0)
    }

    /// The next word as a slot, or 0.
    pub(crate) fn slot(&mut self) -> u8 {
        self.next().parse::<u8>().unwrap_or(0)
    }

    /// The letters of the next word as bytes, or none.
    pub(crate) fn letters(&mut self) -> &'a [u8] {
        self.next().as_bytes()
    }

    /// The next word as bytes in hexadecimal, or none.
    pub(crate) fn bytes(&mut self, alloc: Global) -> Vec<u8> {
        match hex::decode(alloc, self.next()) {
            Ok(bytes) => bytes,
            Err(_) => Vec::new(alloc),
        }
    }
}

/// The same bytes as the service keeps them.
pub(crate) fn kept(alloc: Global, bytes: &[u8]) -> Result<Bytes, Memory>
    ensures { IfOk result (λ b. b.list ≡ bytes.now) }
{
    let mut kept = Bytes::make(alloc, bytes.len())?;
    kept.append(bytes);
    Ok(kept)
}

/// Bytes as text.
pub(crate) fn text(bytes: &[u8]) -> &str {
    std::str::from_utf8(bytes).unwrap_or("no text")
}

/// Tells that memory ran out.
pub(crate) fn no_memory<R: Print>(rt: &R) -> io::Result<()> {
    println!(rt; "out of memory")
}

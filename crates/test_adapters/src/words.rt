//! The words of a line.

use std::str::SplitWhitespace;

/// What is left of a line, word by word.
#[derive(Drop)]
pub(crate) struct Words<'a> {
    left: SplitWhitespace<'a>,
}

impl<'a> Words<'a> {
    pub(crate) fn of(line: &'a str) -> Words<'a> {
        Words {
            left: line.split_whitespace(),
        }
    }

    /// The next word, or one without letters.
    pub(crate) fn next(&mut self) -> &'a str {
        self.left.next().unwrap_or("")
    }

    /// The next word as a number, or 0.
    pub(crate) fn number(&mut self) -> u32 {
        self.next().parse::<u32>().unwrap_or(0)
    }
}

/// Bytes as text, with a dot for each zero.
pub(crate) fn dotted(bytes: &mut [u8]) -> &str {
    for byte in bytes.iter_mut() {
        if *byte == 0 {
            *byte = b'.';
        }
    }
    std::str::from_utf8(bytes).unwrap_or("no text")
}

// The words of a line, and what is made of them.
use std::alloc::Global;
use std::str::SplitWhitespace;

/// What is left of a line, word by word.
#[derive(Drop)]
pub(crate) struct Words<'a> {
    left: SplitWhitespace<'a>,
}

impl<'a> Words<'a> {
    pub(crate) fn of(line: &'a str) -> Words<'a> {
        Words {
            left: line.split_whitespace(),
        }
    }

    /// The next word, or one without letters.
    pub(crate) fn next(&mut self) -> &'a str {
        self.left.next().unwrap_or("")
    }

    /// The next word as a number, or 0.
    pub(crate) fn number(&mut self) -> u32 {
        self.next().parse::<u32>().unwrap_or(0)
    }

    /// The next word as bytes in hexadecimal, or none.
    pub(crate) fn bytes(&mut self, alloc: Global) -> Vec<u8> {
        match hex::decode(alloc, self.next()) {
            Ok(bytes) => bytes,
            Err(_) => Vec::new(alloc),
        }
    }
}

/// What follows the first word of the first line that begins with it, or nothing.
pub(crate) fn words_after<'a>(lines: &'a str, first: &str) -> Words<'a> {
    for line in lines.lines() {
        let mut words = Words::of(line);
        if words.next() == first {
            return words;
        }
    }
    Words::of("")
}

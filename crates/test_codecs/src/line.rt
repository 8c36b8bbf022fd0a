//! What came of a row, word by word.

ghost use Rattle.std.specs.Prelude.{◌≡◌, ◌≤◌, [], IfOk};

use std::alloc::{AllocError, Global};
use std::fmt;
use tbl_kinds::Bytes;
use test_tables::CaseFault;

/// Words with spaces between them, or that memory ran out for them.
#[derive(Drop)]
pub(crate) struct Line {
    text: String,
    told: Result<(), AllocError>,
}

impl Line {
    pub(crate) fn make(alloc: Global) -> Line {
        Line {
            text: String::new(alloc),
            told: Ok(()),
        }
    }

    /// Keeps that a word wasn't told.
    fn keep(&mut self, told: Result<(), AllocError>) {
        if told.is_err() {
            self.told = told;
        }
    }

    pub(crate) fn word(&mut self, word: &str) {
        let told = write!(self.text, "{word} ");
        self.keep(told);
    }

    pub(crate) fn number(&mut self, number: u32) {
        let told = write!(self.text, "{number} ");
        self.keep(told);
    }

    /// As `Debug` shows it.
    pub(crate) fn shown<T: fmt::Debug>(&mut self, it: &T) {
        let told = write!(self.text, "{it:?} ");
        self.keep(told);
    }

    pub(crate) fn name(&mut self, name: &[u8]) {
        self.word(text_of(name));
    }

    /// A word, and a name after it.
    pub(crate) fn named(&mut self, word: &str, name: &[u8]) {
        self.word(word);
        self.name(name);
    }

    /// A name that may be empty.
    pub(crate) fn field(&mut self, name: &[u8]) {
        let told = write!(self.text, "[{}] ", text_of(name));
        self.keep(told);
    }

    pub(crate) fn numbers(&mut self, numbers: &[u32]) {
        for number in numbers {
            self.number(*number);
        }
    }

    /// A word, and numbers after it.
    pub(crate) fn numbered(&mut self, word: &str, numbers: &[u32]) {
        self.word(word);
        self.numbers(numbers);
    }

    fn digits(&mut self, bytes: &[u8]) -> Result<(), AllocError> {
        for byte in bytes {
            write!(self.text, "{byte:02X}")?;
        }
        self.text.push_str(" ")
    }

    /// Bytes in hexadecimal.
    pub(crate) fn bytes(&mut self, bytes: &[u8]) {
        let told = self.digits(bytes);
        self.keep(told);
    }

    /// Takes all words away.
    pub(crate) fn clear(&mut self) {
        self.text.clear();
        self.told = Ok(());
    }

    /// Whether the words are those that are wanted.
    pub(crate) fn same(&self, alloc: Global, wanted: &str) -> Result<(), CaseFault> {
        if self.told.is_err() {
            return Err(CaseFault::Memory);
        }
        if self.text.trim_end() == wanted {
            return Ok(());
        }
        Err(CaseFault::Differs(self.text.as_str().to_string(alloc)?))
    }
}

/// The text of a name.
fn text_of(name: &[u8]) -> &str {
    std::str::from_utf8(name).unwrap_or("no text")
}

/// Empty bytes with room for so many.
pub(crate) fn room_for(alloc: Global, len: usize) -> Result<Bytes, CaseFault>
    ensures { IfOk result (λ bytes. (bytes.list ≡ []) × (len ≤ bytes.spare)) }
{
    Ok(Bytes::make(alloc, len)?)
}

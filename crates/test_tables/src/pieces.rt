use crate::fault::CaseFault;
use crate::number::number_in;
use crate::piece::Piece;
use std::alloc::Global;
use std::collections::BTreeMap;

/// The pieces that a table has named so far.
#[derive(Drop)]
pub struct Pieces {
    alloc: Global,
    named: BTreeMap<String, Vec<u8>>,
}

/// Puts bytes in hexadecimal so many times after a piece.
fn append_digits(
    alloc: Global,
    piece: &mut Piece,
    digits: &str,
    count: u32,
) -> Result<(), CaseFault> {
    let bytes = hex::decode(alloc, digits)?;
    Ok(piece.append(&bytes, count)?)
}

/// Puts a number in hexadecimal after a piece, one that counts up.
fn append_counted(alloc: Global, piece: &mut Piece, digits: &str) -> Result<(), CaseFault> {
    let number = hex::decode(alloc, digits)?;
    Ok(piece.append_counted(&number)?)
}

/// The bytes of a piece, so many times.
fn repeat(alloc: Global, piece: &mut Piece, count: u32) -> Result<Vec<u8>, CaseFault> {
    let mut bytes = Vec::new(alloc);
    piece.repeat(count, &mut bytes)?;
    Ok(bytes)
}

impl Pieces {
    /// No pieces.
    pub fn make(alloc: Global) -> Pieces {
        Pieces {
            alloc,
            named: BTreeMap::new(alloc),
        }
    }

    /// Puts the bytes of a name after a piece.
    fn append_named(&self, piece: &mut Piece, name: &str) -> Result<(), CaseFault> {
        match self.named.get(name) {
            Some(bytes) => Ok(piece.append(bytes, 1)?),
            None => Err(CaseFault::Unreadable),
        }
    }

    /// Puts a word after a piece: `$NAME` for the bytes of that name, `+HEX` for a number that counts up,
    /// `COUNT*HEX` for the same bytes so many times, or `HEX`.
    fn append_word(&self, piece: &mut Piece, word: &str) -> Result<(), CaseFault> {
        if let Some(name) = word.strip_prefix('$') {
            self.append_named(piece, name)
        } else if let Some(digits) = word.strip_prefix('+') {
            append_counted(self.alloc, piece, digits)
        } else if let Some((count, digits)) = word.split_once('*') {
            append_digits(self.alloc, piece, digits, number_in(count)?)
        } else {
            append_digits(self.alloc, piece, word, 1)
        }
    }

    /// Puts words with spaces between them after a piece.
    fn append_words(&self, piece: &mut Piece, words: &str) -> Result<(), CaseFault> {
        for word in words.split_ascii_whitespace() {
            self.append_word(piece, word)?;
        }
        Ok(())
    }

    /// The bytes of words, so many times.
    fn repeated(&self, count: u32, words: &str) -> Result<Vec<u8>, CaseFault> {
        let mut piece = Piece::make(self.alloc);
        self.append_words(&mut piece, words)?;
        repeat(self.alloc, &mut piece, count)
    }

    /// The bytes of a cell: `COUNT times WORDS`, or `WORDS` alone for once. The words have spaces between them, and are
    /// `$NAME` for a piece, `HEX`, `COUNT*HEX` for the same so many times, or `+HEX` for a number that is one higher each
    /// time. So `2 times +00FF 07` is 00FF07010007.
    pub fn bytes(&self, cell: &str) -> Result<Vec<u8>, CaseFault> {
        match cell.split_once(" times ") {
            Some((count, words)) => self.repeated(number_in(count.trim())?, words),
            None => self.repeated(1, cell),
        }
    }

    fn insert(&mut self, name: String, bytes: Vec<u8>) -> Result<(), CaseFault> {
        self.named.insert(name, bytes)?;
        Ok(())
    }

    fn name(&mut self, name: &str, cell: &str) -> Result<(), CaseFault> {
        let bytes = self.bytes(cell)?;
        let name = String::from_str(self.alloc, name)?;
        self.insert(name, bytes)
    }

    /// Names a piece: `NAME = CELL`. A name that there is gets other bytes.
    pub(crate) fn define(&mut self, line: &str) -> Result<(), CaseFault> {
        match line.split_once('=') {
            Some((name, cell)) => self.name(name.trim(), cell),
            None => Err(CaseFault::Unreadable),
        }
    }
}

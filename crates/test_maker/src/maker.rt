//! The rows of the table.

use std::alloc::Global;
use std::fmt::Write;
use tbl_maker::{DescribeFault, MakeFault, Shape, describe_file, make_file, read_shape};
use test_tables::{CaseFault, Cases, Pieces, number_in, same_bytes, same_text};

/// Tries rows.
#[derive(Drop)]
pub(crate) struct Maker {
    alloc: Global,
}

impl Maker {
    pub(crate) fn make(alloc: Global) -> Maker {
        Maker { alloc }
    }

    /// The text is made into this file.
    fn try_made(&self, text: &[u8], file: &[u8]) -> Result<(), CaseFault> {
        match make_file(self.alloc, text) {
            Ok(made) => same_bytes(self.alloc, made.bytes(), file),
            Err(_) => Err(CaseFault::Unreadable),
        }
    }

    /// The text has this first bad line.
    fn try_bad(&self, text: &[u8], line: u32) -> Result<(), CaseFault> {
        match make_file(self.alloc, text) {
            Err(MakeFault::Line { number }) if number == line => Ok(()),
            _ => Err(CaseFault::Unreadable),
        }
    }

    fn shape_in(&self, word: &str) -> Result<Shape, CaseFault> {
        match read_shape(self.alloc, word.as_bytes())? {
            Some(shape) => Ok(shape),
            None => Err(CaseFault::Unreadable),
        }
    }

    /// The file, described by the shape, is this text.
    fn try_described(&self, shape: &str, file: &[u8], text: &[u8]) -> Result<(), CaseFault> {
        let shape = self.shape_in(shape)?;
        match describe_file(self.alloc, &shape, file) {
            Ok(described) => same_bytes(self.alloc, described.bytes(), text),
            Err(_) => Err(CaseFault::Unreadable),
        }
    }

    /// The file isn't described by the shape, for this reason.
    fn try_refused(&self, shape: &str, file: &[u8], wanted: &str) -> Result<(), CaseFault> {
        let shape = self.shape_in(shape)?;
        let mut told = String::new(self.alloc);
        match describe_file(self.alloc, &shape, file) {
            Err(DescribeFault::File) => told.push_str("file")?,
            Err(DescribeFault::Length { need, have }) => write!(told, "length {need} {have}")?,
            _ => return Err(CaseFault::Unreadable),
        }
        same_text(told, wanted)
    }

    /// The bytes are a word of a shape, or none.
    fn try_shape(&self, word: &[u8], wanted: &str) -> Result<(), CaseFault> {
        let is_shape = read_shape(self.alloc, word)?.is_some();
        if is_shape == (wanted == "shape") {
            Ok(())
        } else {
            Err(CaseFault::Unreadable)
        }
    }

    fn try_three(
        &self,
        pieces: &Pieces,
        called: &str,
        given: &str,
        wanted: &str,
    ) -> Result<(), CaseFault> {
        let bytes = pieces.bytes(given)?;
        match called {
            "made" => self.try_made(&bytes, &pieces.bytes(wanted)?),
            "bad" => self.try_bad(&bytes, number_in(wanted)?),
            "shape" => self.try_shape(&bytes, wanted),
            _ => Err(CaseFault::Unreadable),
        }
    }

    fn try_four(
        &self,
        pieces: &Pieces,
        called: &str,
        shape: &str,
        given: [&str; 2],
    ) -> Result<(), CaseFault> {
        let [first, second] = given;
        let file = pieces.bytes(first)?;
        match called {
            "described" => self.try_described(shape, &file, &pieces.bytes(second)?),
            "refused" => self.try_refused(shape, &file, second),
            "both" => {
                let text = pieces.bytes(second)?;
                self.try_described(shape, &file, &text)?;
                self.try_made(&text, &file)
            }
            _ => Err(CaseFault::Unreadable),
        }
    }
}

impl Cases for Maker {
    /// The first cell of a row names what is called, and the last one states what comes of it.
    fn try_row(&mut self, pieces: &Pieces, cells: &[&str]) -> Result<u32, CaseFault> {
        match cells {
            [called, given, wanted] => self.try_three(pieces, called, given, wanted)?,
            [called, shape, first, second] => self.try_four(
                pieces,
                called,
                shape,
                [first, second],
            )?,
            _ => return Err(CaseFault::Unreadable),
        }
        Ok(1)
    }
}

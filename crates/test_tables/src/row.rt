use crate::answer::{kept, same_bytes};
use crate::fault::CaseFault;
use crate::number::{number_in, numbers_in};
use crate::pieces::Pieces;
use crate::table::without_comment;
use std::alloc::Global;
use tbl_kinds::Bytes;

/// The cells of a row, numbered from 0, and the pieces that were named before it.
#[derive(Drop)]
pub struct Row {
    alloc: Global,
    pieces: Pieces,
    cells: Vec<String>,
}

impl Row {
    /// Before the first row.
    pub fn make(alloc: Global) -> Row {
        Row {
            alloc,
            pieces: Pieces::make(alloc),
            cells: Vec::new(alloc),
        }
    }

    fn keep_cells(&mut self, line: &str) -> Result<(), CaseFault> {
        self.cells.clear();
        for cell in line.split('|') {
            self.cells.push(String::from_str(self.alloc, cell.trim())?)?;
        }
        Ok(())
    }

    /// Reads a line, and tells whether it is a row. One that isn't names a piece, or is empty.
    pub(crate) fn read(&mut self, line: &str) -> Result<bool, CaseFault> {
        let line = without_comment(line);
        if line.is_empty() {
            return Ok(false);
        }
        if line.contains('|') {
            self.keep_cells(line)?;
            return Ok(true);
        }
        self.pieces.define(line)?;
        Ok(false)
    }

    /// The memory that readers of the row take.
    pub fn alloc(&self) -> Global {
        self.alloc
    }

    /// How many cells there are.
    pub fn len(&self) -> usize {
        self.cells.len()
    }

    /// The text of a cell.
    pub fn text(&self, at: usize) -> Result<&str, CaseFault> {
        match self.cells.get(at) {
            Some(cell) => Ok(cell.as_str()),
            None => Err(CaseFault::Unreadable),
        }
    }

    /// The number of a cell.
    pub fn number(&self, at: usize) -> Result<u32, CaseFault> {
        number_in(self.text(at)?)
    }

    /// The numbers of a cell.
    pub fn numbers(&self, at: usize) -> Result<Vec<u32>, CaseFault> {
        numbers_in(self.alloc, self.text(at)?)
    }

    /// The bytes of a cell.
    pub fn bytes(&self, at: usize) -> Result<Vec<u8>, CaseFault> {
        self.pieces.bytes(self.text(at)?)
    }

    /// The bytes of a text as the service keeps them.
    fn kept_in(&self, text: &str) -> Result<Bytes, CaseFault> {
        let bytes = self.pieces.bytes(text)?;
        Ok(kept(self.alloc, &bytes)?)
    }

    /// The bytes of a cell as the service keeps them.
    pub fn kept(&self, at: usize) -> Result<Bytes, CaseFault> {
        self.kept_in(self.text(at)?)
    }

    /// The words of a cell, each of which is bytes.
    pub fn words(&self, at: usize) -> Result<Vec<Bytes>, CaseFault> {
        let mut words = Vec::new(self.alloc);
        for word in self.text(at)?.split_ascii_whitespace() {
            words.push(self.kept_in(word)?)?;
        }
        Ok(words)
    }

    /// Whether a number is that of a cell.
    pub fn same_number(&self, at: usize, came: u64) -> Result<(), CaseFault> {
        if came == u64::from(self.number(at)?) {
            return Ok(());
        }
        Err(CaseFault::Differs(format!(in self.alloc; "{came} in cell {at}")?))
    }

    /// Whether bytes are those of a cell.
    pub fn same_bytes(&self, at: usize, came: &[u8]) -> Result<(), CaseFault> {
        same_bytes(self.alloc, came, &self.bytes(at)?)
    }
}

use crate::fault::CaseFault;
use crate::pieces::Pieces;
use std::alloc::{AllocError, Global};
use std::io::{self, Read};

/// What tries the rows of a table.
pub trait Cases {
    /// Tries the cases of a row, and tells how many there are.
    fn try_row(&mut self, pieces: &Pieces, cells: &[&str]) -> Result<u32, CaseFault>;
}

/// A line without its comment, which `#` begins.
pub(crate) fn without_comment(line: &str) -> &str {
    match line.split_once('#') {
        Some((front, _)) => front.trim(),
        None => line.trim(),
    }
}

/// The cells of a row, which have `|` between them.
fn cells_of(alloc: Global, row: &str) -> Result<Vec<&str>, AllocError> {
    row.split('|').map(|cell| cell.trim()).collect(alloc)
}

/// The cells of a line that is a row; none where it names a piece, which is kept then, or is empty.
fn row_in<'l>(
    alloc: Global,
    pieces: &mut Pieces,
    line: &'l str,
) -> Result<Option<Vec<&'l str>>, CaseFault> {
    let line = without_comment(line);
    if line.is_empty() {
        Ok(None)
    } else if line.contains('|') {
        Ok(Some(cells_of(alloc, line)?))
    } else {
        pieces.define(line)?;
        Ok(None)
    }
}

/// How many cases were tried, and how many lines failed.
#[derive(Drop)]
pub(crate) struct Tally {
    count: u32,
    failed: u32,
}

impl Tally {
    /// Before the first line.
    pub(crate) fn make() -> Tally {
        Tally {
            count: 0,
            failed: 0,
        }
    }

    /// Counts the cases of the line at a place, or tells why it failed.
    pub(crate) fn add<R: Print>(
        &mut self,
        rt: &R,
        place: usize,
        tried: Result<u32, CaseFault>,
    ) -> io::Result<()> {
        match tried {
            Ok(more) => {
                self.count = self.count.saturating_add(more);
                Ok(())
            }
            Err(fault) => {
                self.failed = self.failed.saturating_add(1);
                let number = place.saturating_add(1);
                println!(rt; "line {number}: {fault}")
            }
        }
    }

    /// Tells how many cases there were and how many lines failed. The answer is whether none did.
    pub(crate) fn end<R: Print>(&self, rt: &R) -> io::Result<bool> {
        let count = self.count;
        let failed = self.failed;
        println!(rt; "{count} cases, {failed} lines that fail")?;
        Ok(failed == 0)
    }
}

/// Tries the cases of a line, and tells how many there are.
fn try_line<C: Cases>(
    alloc: Global,
    pieces: &mut Pieces,
    cases: &mut C,
    line: &str,
) -> Result<u32, CaseFault> {
    match row_in(alloc, pieces, line)? {
        Some(cells) => cases.try_row(pieces, &cells),
        None => Ok(0),
    }
}

/// Tries the lines of a table, and counts them.
fn play_lines<R: Print + AllocGlobal, C: Cases>(
    rt: &R,
    cases: &mut C,
    table: &str,
    tally: &mut Tally,
) -> io::Result<()> {
    let mut pieces = Pieces::make(rt.alloc());
    for (place, line) in table.lines().enumerate() {
        let tried = try_line(rt.alloc(), &mut pieces, cases, line);
        tally.add(rt, place, tried)?;
    }
    Ok(())
}

/// Tries the table on standard input, and tells each line that fails and how many cases there were. The answer is whether
/// none failed. A line with `|` is a row, whose cells have `|` between them. Each other one that isn't empty names a piece:
/// `NAME = CELL`, as [`Pieces::bytes`] reads the cell. What stands after `#` is a comment.
pub fn play_table<R: Input + Print + AllocGlobal, C: Cases>(
    rt: &R,
    cases: &mut C,
) -> io::Result<bool> {
    let table = io::read_to_string(rt.alloc(), rt.reader())?;
    let mut tally = Tally::make();
    play_lines(rt, cases, &table, &mut tally)?;
    tally.end(rt)
}

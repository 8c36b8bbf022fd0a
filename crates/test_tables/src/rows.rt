ghost use Rattle.std.specs.Thread.{IsSync};

use crate::fault::CaseFault;
use crate::row::Row;
use crate::table::Tally;
use std::io::{self, Read};
use std::sync::Wait;
use std::thread::Threads;

/// What tries the rows of a table. It may start threads for it.
pub trait RowCases {
    /// Tries the cases of a row, and tells how many there are.
    fn try_row<R: Threads + Wait + Sync>(&mut self, rt: &R, row: &Row) -> Result<u32, CaseFault>
        requires { IsSync R.row };
}

/// Tries the cases of a line, and tells how many there are.
fn try_line<R: Threads + Wait + Sync, C: RowCases>(
    rt: &R,
    cases: &mut C,
    row: &mut Row,
    line: &str,
) -> Result<u32, CaseFault> {
    if row.read(line)? {
        cases.try_row(rt, row)
    } else {
        Ok(0)
    }
}

/// Tries the lines of a table, and counts them.
fn play_lines<R: Print + AllocGlobal + Threads + Wait + Sync, C: RowCases>(
    rt: &R,
    cases: &mut C,
    table: &str,
    tally: &mut Tally,
) -> io::Result<()> {
    let mut row = Row::make(rt.alloc());
    for (place, line) in table.lines().enumerate() {
        let tried = try_line(rt, cases, &mut row, line);
        tally.add(rt, place, tried)?;
    }
    Ok(())
}

/// Tries the table on standard input as `play_table` does, by cases that may start threads.
pub fn play_rows<R: Input + Print + AllocGlobal + Threads + Wait + Sync, C: RowCases>(
    rt: &R,
    cases: &mut C,
) -> io::Result<bool> {
    let table = io::read_to_string(rt.alloc(), rt.reader())?;
    let mut tally = Tally::make();
    play_lines(rt, cases, &table, &mut tally)?;
    tally.end(rt)
}

//! The mark: it is written alone, and read back where a write of it broke off.

ghost use Rattle.bank_mirror.specs.Kept.{WritesMark, ReadsMark};

use crate::banks::{Banks, STALE};
use crate::in_use::Alone;
use tbl_outside::{Bank, Failed, Written};

impl<A: Bank, B: Bank> Banks<A, B> {
    /// Writes the mark, and nothing else.
    pub(crate) fn write_mark(&mut self, mark: u8) -> Written
        ensures { WritesMark A.Bank B.Bank self.old self.new mark result }
    {
        let place = self.size();
        self.write_second(place, &[mark])
    }

    /// Reads which is the good one: the second if the mark is set, else the first.
    pub(crate) fn good_one(&mut self) -> Result<Alone, Failed>
        ensures { ReadsMark A.Bank B.Bank self.old self.new result }
    {
        let place = self.size();
        let mut mark = [0];
        match self.read_second(place, &mut mark) {
            Ok(()) if mark[0] == STALE => Ok(Alone::Second),
            Ok(()) => Ok(Alone::First),
            Err(Failed) => Err(Failed),
        }
    }
}

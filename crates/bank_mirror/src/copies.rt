//! The copy that an opening makes, a piece at a time: the bank that is copied from stays as it is.

ghost use Rattle.std.specs.Prelude.{◌≡◌, ◌+◌, length};
ghost use Rattle.bank_mirror.specs.BanksInUse.{IsHeld, in_use_alone};
ghost use Rattle.bank_mirror.specs.CallsInUse.{CanReach};
ghost use Rattle.bank_mirror.specs.Copies.{SameUpTo, CopiesTo};

use crate::banks::Banks;
use crate::in_use::Alone;
use tbl_outside::{Bank, Failed, Written};

/// How many bytes are copied at a time.
pub(crate) const PIECE: u32 = 4_096;

impl<A: Bank, B: Bank> Banks<A, B> {
    /// Copies the good one, as the mark says, over the other one. A write that broke off ends it.
    pub(crate) fn copy_from(&mut self, good: Alone, buffer: &mut [u8]) -> Result<Written, Failed>
        requires buffer { length buffer.old ≡ PIECE }
        requires held { IsHeld A.Bank B.Bank (in_use_alone good) self.old }
        ensures { CopiesTo A.Bank B.Bank good (A.size self.old.first) self.old self.new result }
    {
        let size = self.size();
        let mut at = 0;
        while at < size {
            let count = (size - at).min(PIECE);
            match self.copy_piece(good, at, &mut buffer[..count as usize]) {
                Ok(Written::Done) => at += count,
                Ok(Written::Failed) => return Ok(Written::Failed),
                Ok(Written::Stopped) => return Ok(Written::Stopped),
                Err(Failed) => return Err(Failed),
            }
        }
        Ok(Written::Done)
    }

    /// Copies a piece of the good one over the other one, which already has what is before it.
    fn copy_piece(&mut self, good: Alone, at: u32, piece: &mut [u8]) -> Result<Written, Failed>
        requires reach { CanReach A.Bank B.Bank (in_use_alone good) self.old at piece.old }
        requires copied { SameUpTo A.Bank B.Bank at self.old }
        ensures { CopiesTo A.Bank B.Bank good (at + length piece.old) self.old self.new result }
    {
        match good {
            Alone::First => match self.read_first(at, piece) {
                Ok(()) => Ok(self.write_second(at, piece)),
                Err(Failed) => Err(Failed),
            },
            Alone::Second => match self.read_second(at, piece) {
                Ok(()) => Ok(self.write_first(at, piece)),
                Err(Failed) => Err(Failed),
            },
        }
    }
}

//! An opening that looks first, and doesn't copy a blank first bank over a live store in the second.

ghost use Rattle.std.specs.Prelude.{◌≤◌, ◌&&◌};
ghost use Rattle.bank_mirror.specs.Kept.{LooksFor};
ghost use Rattle.bank_mirror.specs.Openings.{EndsChecked};
ghost use Rattle.bank_mirror.specs.Checks.{is_blank, is_live, loses_store};

use crate::banks::Banks;
use crate::copies::PIECE;
use crate::in_use::Alone;
use crate::opening::{OpenFault, Opened};
use std::alloc::Global;
use tbl_outside::{Bank, Failed};

impl<A: Bank, B: Bank> Banks<A, B> {
    /// Reads whether the first is blank.
    fn first_is_blank(&mut self) -> Result<bool, Failed>
        requires room { 3 ≤ A.size self.old.first }
        ensures { LooksFor A.Bank B.Bank (is_blank (A.now self.old.first)) self.old self.new result }
    {
        let mut front = [0; 3];
        match self.read_first(0, &mut front) {
            Ok(()) => Ok(front[0] == front[1] && front[0] == front[2]),
            Err(Failed) => Err(Failed),
        }
    }

    /// Reads whether the second begins with the mark of a live store.
    fn second_is_live(&mut self, live_mark: &[u8; 3]) -> Result<bool, Failed>
        requires room { 3 ≤ A.size self.old.first }
        ensures { LooksFor A.Bank B.Bank (is_live live_mark.now (B.now self.old.second)) self.old self.new result }
    {
        let mut front = [0; 3];
        match self.read_second(0, &mut front) {
            Ok(()) => Ok(front.as_slice() == live_mark.as_slice()),
            Err(Failed) => Err(Failed),
        }
    }

    /// Reads whether the first is blank and the second has a live store.
    fn is_blank_over_live(&mut self, live_mark: &[u8; 3]) -> Result<bool, Failed>
        requires room { 3 ≤ A.size self.old.first }
        ensures { LooksFor A.Bank B.Bank (is_blank (A.now self.old.first) && is_live live_mark.now (B.now self.old.second))
            self.old self.new result }
    {
        match self.first_is_blank() {
            Ok(true) => self.second_is_live(live_mark),
            Ok(false) => Ok(false),
            Err(Failed) => Err(Failed),
        }
    }

    /// Reads whether an opening would copy a blank first over a live store in the second.
    fn loses_store(&mut self, live_mark: &[u8; 3]) -> Result<bool, Failed>
        requires room { 3 ≤ A.size self.old.first }
        ensures { LooksFor A.Bank B.Bank (loses_store live_mark.now (A.now self.old.first) (B.now self.old.second)) self.old self.new result }
    {
        match self.good_one() {
            Ok(Alone::First) => self.is_blank_over_live(live_mark),
            Ok(Alone::Second) => Ok(false),
            Err(Failed) => Err(Failed),
        }
    }

    /// Makes both hold what they hold together, unless a store would be lost by that. All memory that it needs is taken
    /// before the first call.
    pub(crate) fn open_checked(
        &mut self,
        alloc: Global,
        live_mark: &[u8; 3],
    ) -> Result<Opened, OpenFault>
        requires room { 3 ≤ A.size self.old.first }
        ensures { EndsChecked A.Bank B.Bank live_mark.now self.old self.new result }
    {
        let mut buffer = vec![in alloc; 0; PIECE as usize]?;
        match self.loses_store(live_mark) {
            Ok(true) => Err(OpenFault::Blank),
            Ok(false) => self.agree(&mut buffer),
            Err(Failed) => Err(OpenFault::Fault),
        }
    }
}

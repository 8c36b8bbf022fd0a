//! The bank of an engine, and another one in its place.

ghost use Rattle.std.specs.Prelude.{◌≡◌, ◌≤◌};
ghost use Rattle.tbl_kinds.specs.Places.{bank_size};
ghost use Rattle.tbl_core.specs.Banks.{HasBank};

use crate::engine::Engine;
use tbl_outside::{Bank, Validator};

impl<B: Bank, C: Validator> Engine<B, C> {
    /// The bank.
    pub fn bank(&self) -> &B
        ensures bank { result.now ≡ self.now.state.store.bank }
        ensures room { bank_size ≤ B.size result.now }
    {
        self.works.parts.store.bank()
    }

    /// Puts another bank in the place of the one that it has, and gives that back. The new one holds the same bytes, so whatever the
    /// engine stood for, it stands for.
    pub fn replace_bank(&mut self, bank: B) -> B
        requires room { bank_size ≤ B.size bank }
        requires same { B.tells → B.now bank ≡ B.now self.old.state.store.bank }
        ensures old { result ≡ self.old.state.store.bank }
        ensures new { HasBank B.Bank bank self.old self.new }
    {
        self.works.parts.store.replace_bank(bank)
    }
}

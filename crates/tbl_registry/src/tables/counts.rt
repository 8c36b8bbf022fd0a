//! What is counted over all tables, as they change.

ghost use Rattle.std.specs.Prelude.{◌≡◌};
ghost use Rattle.tbl_registry.specs.Counts.{CanCount, IsCounted, counted_with, counted_without};

use crate::row::Row;

/// How many tables are registered, how many of them have an open load, and how many use a shared working buffer.
#[derive(Clone, Copy)]
pub(super) struct Counts {
    pub(super) tables: u16,
    pub(super) loads: u16,
    pub(super) users: u16,
}

impl Counts {
    /// There is no table.
    pub(super) fn none() -> Counts
        ensures { result ≡ record { tables = 0; loads = 0; users = 0 } }
    {
        Counts {
            tables: 0,
            loads: 0,
            users: 0,
        }
    }

    /// A table counts from now on.
    #[tactic(auto, using(crate::proofs::Counted::byte_one))]
    pub(super) fn enter(&mut self, table: &Row)
        requires { CanCount self.old }
        ensures { self.new ≡ counted_with table.now self.old }
    {
        self.tables += 1;
        self.loads += table.has_load() as u16;
        self.users += table.uses_buffer() as u16;
    }

    /// A table doesn't count any more.
    #[tactic(auto, using(crate::proofs::Counted::byte_one))]
    pub(super) fn leave(&mut self, table: &Row)
        requires { IsCounted table.now self.old }
        ensures { self.new ≡ counted_without table.now self.old }
    {
        self.tables -= 1;
        self.loads -= table.has_load() as u16;
        self.users -= table.uses_buffer() as u16;
    }
}

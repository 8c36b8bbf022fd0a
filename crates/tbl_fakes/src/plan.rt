// Which calls of an object fail.
ghost use Rattle.std.specs.Prelude.{◌≡◌, ◌≤◌, [], IfOk};
ghost use Rattle.tbl_fakes.specs.Calls.{is_listed, passed, failed, none_made};

use std::alloc::Global;
use std::marker::Model;
use tbl_kinds::Memory;

/// The numbers of the calls that fail, counted from 1, how many were made, and how many failed.
#[derive(Drop)]
pub(crate) struct Plan {
    listed: Vec<u32>,
    made: u64,
    pub(crate) faults: u64,
}

impl Model for Plan {
    ghost use Rattle.tbl_fakes.specs.Calls.{Calls};

    ghost Value = { Calls };

    ghost view = { λ p. record { listed = p.listed.items; made = p.made; faults = p.faults } };
}

impl Plan {
    /// No call was made, and none is listed.
    pub(crate) fn empty(alloc: Global) -> Plan
        ensures { result ≡ none_made [] }
    {
        Plan {
            listed: Vec::new(alloc),
            made: 0,
            faults: 0,
        }
    }

    pub(crate) fn make(alloc: Global, fails: &[u32]) -> Result<Plan, Memory>
        ensures { IfOk result (λ p. p ≡ none_made fails.now) }
    {
        Ok(Plan {
            listed: fails.to_vec(alloc)?,
            made: 0,
            faults: 0,
        })
    }

    /// Counts a call, and says whether it is one of those that fail.
    pub(crate) fn fails_next(&mut self) -> bool
        ensures answer { result ≡ is_listed self.old }
        ensures counted { self.new ≡ passed self.old }
    {
        self.made = self.made.saturating_add(1);
        self.listed
            .iter()
            .any(|number| u64::from(*number) == self.made)
    }

    /// Counts a failure.
    pub(crate) fn fault(&mut self)
        ensures counted { self.new ≡ failed self.old }
        ensures no_less { self.old.faults ≤ self.new.faults }
    {
        self.faults = self.faults.saturating_add(1);
    }
}

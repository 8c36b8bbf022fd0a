//! The functions of the same applications again, as they were before they were asked.

ghost use Rattle.std.specs.Prelude.{◌≡◌, All, IfOk, IfSome};
ghost use Rattle.std.specs.Option.{option_map};
ghost use Rattle.validation.specs.Kits.{owners};

use super::Kit;
use std::alloc::Global;
use tbl_kinds::Memory;
use tbl_outside::{KitEntry, Validator};

/// A further function of the same application, if there is one.
fn renewed<C: Validator, F: Fn() -> C>(
    entry: &Option<KitEntry<C>>,
    fresh: &F,
) -> Option<KitEntry<C>>
    requires { F.IsAlwaysCallable fresh.now }
    ensures app { option_map (λ e. e.app) result ≡ option_map (λ e. e.app) entry.now }
    ensures fresh { IfSome result (λ e. F.post fresh.now e.check) }
{
    match entry {
        Some(entry) => Some(KitEntry {
            app: entry.app,
            check: fresh(),
        }),
        None => None,
    }
}

impl<C: Validator> Kit<C> {
    /// A kit with a function of the same application under each number that has one, each of which `fresh` gives. An Err means out of
    /// memory.
    pub fn renewed<F: Fn() -> C>(&self, alloc: Global, fresh: F) -> Result<Kit<C>, Memory>
        requires { F.IsAlwaysCallable fresh }
        ensures owners { IfOk result (λ kit. owners kit ≡ owners self.now) }
        ensures fresh { IfOk result (All (λ entry. IfSome entry (λ e. F.post fresh e.check))) }
    {
        let mut entries = Vec::with_capacity(alloc, self.entries.len())?;
        for entry in &self.entries {
            entries.push(renewed(entry, &fresh))?;
        }
        Ok(Kit { entries })
    }
}

ghost use Rattle.std.specs.Prelude.{◌≡◌, ◌<◌, ◌≤◌, All, IfOk};
ghost use Rattle.shipped_kit.specs.Verdicts.{asked_of};
ghost use Rattle.shipped_kit.specs.Kit.{shipped_at, shipped_below};

use crate::validators::{FirstByte, LastXor};
use std::alloc::{AllocError, Global};
use tbl_outside::{KitEntry, Validator};

/// How many functions the shipped program has: two for each of the sixteen applications.
pub const FUNCTIONS: u8 = 32;

/// A validation function of the shipped program.
#[derive(Drop)]
pub enum Shipped {
    First(FirstByte),
    Last(LastXor),
}

impl Validator for Shipped {
    ghost use Rattle.shipped_kit.specs.Verdicts.{verdict_of, asked_of};

    ghost verdict = { verdict_of };

    ghost asked = { asked_of };

    fn validate(&mut self, image: &[u8]) -> i32 {
        match self {
            Shipped::First(function) => function.validate(image),
            Shipped::Last(function) => function.validate(image),
        }
    }
}

/// The function of this number, below `FUNCTIONS`, and its application: application a has 2a - 2, which looks at the first
/// byte, and 2a - 1, which looks at the last one, for a from 1 to 16.
pub fn shipped_entry(number: u8) -> KitEntry<Shipped>
    requires { number < 32 }
    ensures entry { result ≡ shipped_at number }
    ensures from { 1 ≤ result.app }
    ensures to { result.app ≤ 16 }
    ensures fresh { asked_of result.check ≡ 0 }
{
    let check = if number % 2 == 0 {
        Shipped::First(FirstByte::make())
    } else {
        Shipped::Last(LastXor::make())
    };
    KitEntry {
        app: number / 2 + 1,
        check,
    }
}

/// All functions of the shipped program, in order of their numbers.
#[tactic(auto, unfolding(crate::specs::Kit::shipped_below))]
pub fn shipped_entries(alloc: Global) -> Result<Vec<KitEntry<Shipped>>, AllocError>
    ensures entries { IfOk result (λ entries. entries.items ≡ shipped_below 32) }
    ensures fresh { IfOk result (λ entries. All (λ e. asked_of e.check ≡ 0) entries.items) }
{
    let mut entries = Vec::with_capacity(alloc, usize::from(FUNCTIONS))?;
    'functions: for number in 0..FUNCTIONS {
        entries.push(shipped_entry(number))?;
    }
    Ok(entries)
}

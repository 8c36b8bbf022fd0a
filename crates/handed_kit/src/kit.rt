//! The validation functions of all applications, by their numbers.

ghost use Rattle.std.specs.Prelude.{◌≡◌, ◌<◌, ◌≤◌, All, IfOk};
ghost use Rattle.handed_kit.specs.Answering.{Spoken};
ghost use Rattle.handed_kit.specs.Kit.{app_of, mute_at, mute_below};
ghost use Rattle.tbl_outside.specs.declared.validator.KitEntry.{KitEntry as Entry};

use crate::answering::Answering;
use std::alloc::{AllocError, Global};
use tbl_outside::KitEntry;

/// How many functions there are: fifteen for each of the sixteen applications.
pub const FUNCTIONS: u8 = 240;

/// How many of them stand as in the program, two for each application.
const PAIRED: u8 = 32;

/// The application, from 1 to 16, whose function has this number.
fn app_of(number: u8) -> u8
    ensures app { result ≡ app_of number }
{
    if number < PAIRED {
        number / 2 + 1
    } else {
        number % 16 + 1
    }
}

/// The function of this number, for which nothing was handed in.
fn mute_entry(number: u8) -> KitEntry<Answering>
    ensures entry { result ≡ mute_at number }
{
    KitEntry {
        app: app_of(number),
        check: Answering::mute(),
    }
}

/// All functions, in order of their numbers. Nothing was handed in for any of them.
#[tactic(auto, unfolding(crate::specs::Kit::mute_below))]
pub fn mute_entries(alloc: Global) -> Result<Vec<KitEntry<Answering>>, AllocError>
    ensures entries { IfOk result (λ entries. entries.items ≡ mute_below 240) }
    ensures asked { IfOk result (λ entries. All (λ (e : Entry Spoken). e.check.asked ≡ 0) entries.items) }
{
    let mut entries = Vec::with_capacity(alloc, usize::from(FUNCTIONS))?;
    'functions: for number in 0..FUNCTIONS {
        entries.push(mute_entry(number))?;
    }
    Ok(entries)
}

ghost use Rattle.std.specs.Prelude.{◌≡◌, ◌<◌, ◌^◌, [], ◌∷◌, Some, None, is_some, map, IfOk};
ghost use Rattle.std.specs.Option.{ForSome, option_map};
ghost use Rattle.validation.specs.Kits.{entry_at, is_of, unless_of, dropped, Hands, with_check, AskedMore, MayAsk};
ghost use Rattle.validation.specs.Asked.{WasAsked, asks};
ghost use Rattle.tbl_outside.specs.declared.validator.KitEntry.{KitEntry as Entry};

mod renewal;

use std::alloc::Global;
use std::marker::Model;
use tbl_kinds::Memory;
use tbl_outside::{KitEntry, Validator};

/// The validation functions that the service was given, by their numbers (cFE User's Guide, Table Services, "Validating
/// tables"). A function that was dropped leaves its number free for good, so that no number ever means another function.
#[derive(Drop)]
pub struct Kit<C: Validator> {
    entries: Vec<Option<KitEntry<C>>>,
}

impl<C: Validator> Model for Kit<C> {
    ghost use Rattle.std.specs.Prelude.{List, Option};
    ghost use Rattle.tbl_outside.specs.declared.validator.KitEntry.{KitEntry};

    ghost Value = { List (Option (KitEntry C)) };

    ghost view = { λ kit. kit.entries.items };
}

/// Whether the entry is a function of this application.
fn is_of<C: Validator>(entry: &Option<KitEntry<C>>, app: u8) -> bool
    ensures { result ≡ is_of app entry.now }
{
    match entry {
        Some(entry) => entry.app == app,
        None => false,
    }
}

/// Asks a validation function.
fn ask<C: Validator>(entry: &mut KitEntry<C>, image: &[u8]) -> i32
    requires { C.asked entry.old.check < 2 ^ 63 }
    ensures verdict { result ≡ C.verdict entry.old.check image.now }
    ensures asked { AskedMore C.verdict C.asked 1 entry.old entry.new }
{
    entry.check.validate(image)
}

/// Drops the function of an application.
fn drop_of<C: Validator>(entry: &mut Option<KitEntry<C>>, app: u8)
    ensures { entry.new ≡ unless_of app entry.old }
{
    if is_of(entry, app) {
        *entry = None;
    }
}

/// Replaces the function of an entry, if there is one, by another.
fn put_check<C: Validator>(entry: &mut Option<KitEntry<C>>, check: C)
    ensures { entry.new ≡ option_map (with_check check) entry.old }
{
    if let Some(entry) = entry {
        entry.check = check;
    }
}

/// Replaces the function at a place, if there is one, by another.
#[tactic(auto, using(crate::proofs::Handing::handed_past))]
fn hand_in<C: Validator>(entries: &mut [Option<KitEntry<C>>], at: usize, check: C)
    ensures { Hands at check entries.old entries.new }
{
    if at < entries.len() {
        put_check(&mut entries[at], check);
    }
}

impl<C: Validator> Kit<C> {
    /// The functions in this order, numbered from 0.
    pub fn make(alloc: Global, entries: Vec<KitEntry<C>>) -> Result<Kit<C>, Memory>
        ensures { IfOk result (λ kit. kit ≡ map (λ (entry : Entry C). Some entry) entries.items) }
    {
        let mut places = Vec::with_capacity(alloc, entries.len())?;
        for entry in entries {
            places.push(Some(entry))?;
        }
        Ok(Kit { entries: places })
    }

    /// Whether an application may register a table with the function of this number: it is its own, and wasn't dropped.
    pub fn may_use(&self, app: u8, number: u8) -> bool
        ensures { result ≡ is_of app (entry_at self.now number) }
    {
        match self.entries.get(number as usize) {
            Some(entry) => is_of(entry, app),
            None => false,
        }
    }

    /// The verdict of the function of this number on an image.
    fn perform(&mut self, number: u8, image: &[u8]) -> i32
        requires { MayAsk C.asked 1 self.old number }
        ensures { WasAsked C.verdict C.asked self.old self.new (asks (Some number) image.now) (Some result ∷ None ∷ []) }
    {
        let Some(entry) = &mut self.entries[number as usize] else {
            unreachable!();
        };
        ask(entry, image)
    }

    /// The verdict of the function of this number on an image, if there is a number.
    #[tactic(auto, using(crate::proofs::Asking::asked_nothing))]
    pub fn judge(&mut self, number: Option<u8>, image: &[u8]) -> Option<i32>
        requires { ForSome number (MayAsk C.asked 1 self.old) }
        ensures told { is_some result ≡ is_some number }
        ensures answers { WasAsked C.verdict C.asked self.old self.new (asks number image.now) (result ∷ None ∷ []) }
    {
        let number = number?;
        Some(self.perform(number, image))
    }

    /// Replaces the function of this number, if there is one, by another. It is the same application's.
    pub fn hand(&mut self, number: u8, check: C)
        ensures { Hands number check self.old self.new }
    {
        hand_in(self.entries.as_mut_slice(), number as usize, check);
    }

    /// Drops the functions of an application, which ended.
    pub fn drop_app(&mut self, app: u8)
        ensures { self.new ≡ dropped app self.old }
    {
        for entry in self.entries.iter_mut() {
            drop_of(entry, app);
        }
    }
}

ghost use Rattle.std.specs.Prelude.{◌≡◌, ◌+◌, ◌<◌, ◌++◌, ◌∷◌, [], None, IsTrue, IsSome, IfOk, IfNone, IfSome, OnOk, OnErr, length, position, slice_get};
ghost use Rattle.std.specs.Option.{option_copied};
ghost use Rattle.tbl_kinds.specs.Drawer.{contents_of, names, undone, with_file};
ghost use Rattle.file_drawer.specs.Calls.{without_last, IsAt, Finds, Replaces, CanUndo, Puts};
ghost use Rattle.file_drawer.specs.Entries.{files_of, is_named};

use crate::contents::Contents;
use std::alloc::Global;
use std::marker::Model;
use std::mem;
use tbl_kinds::{Memory, Name64};

mod copying;

/// How many files there can be.
const FILES: usize = 64;

/// Why a file isn't in the drawer. Nothing was changed, and its contents are gone.
#[derive(Clone, Copy, Debug, PartialEq, Eq, Drop, thiserror::Error)]
pub enum PutFault {
    /// 64 files of other names are in the drawer.
    #[error("64 files of other names are in the drawer")]
    Full,
    /// Memory ran out. It never comes for a name that is there.
    #[error("out of memory")]
    Memory,
}

/// How many numbers `hint_of` gives.
const HINTS: usize = 256;

/// The last three bytes as one number, as if they were digits.
fn last_three(bytes: &[u8]) -> usize
    ensures { result < 28_306 }
{
    let len = bytes.len();
    if len < 3 {
        return 0;
    }
    let hundreds = 100 * usize::from(bytes[len - 3]);
    let tens = 10 * usize::from(bytes[len - 2]);
    hundreds + tens + usize::from(bytes[len - 1])
}

/// A number that few names share. It only says which file is looked at first. Names that end alike, as in `.tbl`, mostly differ before that.
fn hint_of(name: &[u8]) -> usize
    ensures { result < 256 }
{
    let len = name.len();
    let stem = &name[..len.saturating_sub(4)];
    (64 * (len % 4) + last_three(name) + last_three(stem)) % HINTS
}

/// A file under its name.
#[derive(Drop)]
struct Entry {
    name: Name64,
    contents: Contents,
}

impl Entry {
    /// Whether it has this name. Most names differ in their length, which is compared first.
    fn has_name(&self, name: &Name64) -> bool
        ensures { result ≡ is_named name.now self.now }
    {
        name.bytes() == self.name.bytes()
    }
}

/// Whether the file of this name is at a place.
fn is_at(entries: &[Entry], place: usize, name: &Name64) -> bool
    ensures at { IsTrue result → IsAt (files_of entries.now) place name.now }
    ensures within { IsTrue result → place < length entries.now }
{
    match entries.get(place) {
        Some(entry) => entry.has_name(name),
        None => false,
    }
}

/// The place of the first file of this name.
fn first_of(entries: &[Entry], name: &Name64) -> Option<usize>
    ensures place { result ≡ position (is_named name.now) entries.now }
    ensures within { IfSome result (λ place. place < length entries.now) }
{
    entries.iter().position(|entry| entry.has_name(name))
}

/// The place of the file of this name: the place of the hint is looked at first.
#[tactic(auto, using(crate::proofs::Finding::first_named, crate::proofs::Finding::none_named))]
fn find(entries: &[Entry], hint: u8, name: &Name64) -> Option<usize>
    ensures at { IfSome result (λ place. IsAt (files_of entries.now) place name.now) }
    ensures within { IfSome result (λ place. place < length entries.now) }
    ensures absent { IfNone result (contents_of (files_of entries.now) name.now ≡ None) }
{
    let place = usize::from(hint);
    if is_at(entries, place, name) {
        return Some(place);
    }
    first_of(entries, name)
}

/// A further file, which is put last.
fn push(entries: &mut Vec<Entry>, name: &Name64, contents: Contents) -> Result<(), Memory>
    ensures file { OnOk result (files_of entries.new.items ≡ files_of entries.old.items ++ (name.now, contents) ∷ []) }
    ensures err { OnErr result (entries.new.items ≡ entries.old.items) }
{
    let entry = Entry {
        name: name.copy(),
        contents,
    };
    Ok(entries.push(entry)?)
}

fn drop_last(entries: &mut Vec<Entry>)
    ensures { files_of entries.new.items ≡ without_last (files_of entries.old.items) }
{
    let _ = entries.pop();
}

/// The uplinked files, at most 64, in order of the first uplink of their names. They represent the file system that tables are loaded from
/// and dumped to (cFE User's Guide, Table Services). How many bytes a file may have is the caller's rule.
#[derive(Drop)]
pub struct Drawer {
    entries: Vec<Entry>,
    /// For each number that `hint_of` gives, the place of the latest new file with such a name.
    hints: [u8; HINTS],
}

impl Model for Drawer {
    ghost use Rattle.std.specs.Prelude.{ℕ, ◌≤◌, List, length};
    ghost use Rattle.tbl_kinds.specs.Drawer.{File, names};
    ghost use Rattle.file_drawer.specs.Entries.{files_of, AreApart};

    ghost Value = { List File };

    ghost view = { λ d. files_of d.entries.items };

    ghost invariant = { λ d. (length (files_of d.entries.items) ≤ 64) × AreApart (names (files_of d.entries.items)) };
}

impl Drawer {
    /// No file, with room for 64 entries.
    pub fn make(alloc: Global) -> Result<Drawer, Memory>
        ensures { IfOk result (λ d. d ≡ []) }
    {
        Ok(Drawer {
            entries: Vec::with_capacity(alloc, FILES)?,
            hints: [0; HINTS],
        })
    }

    /// The place of the file of a name.
    fn place_of(&self, name: &Name64) -> Option<usize>
        ensures { Finds self.now name.now result }
    {
        find(&self.entries, self.hints[hint_of(name.bytes())], name)
    }

    /// Puts a file last.
    fn add(&mut self, name: &Name64, contents: Contents) -> Result<(), Memory>
        requires room { length self.old < 64 }
        requires new { contents_of self.old name.now ≡ None }
        ensures file { OnOk result (self.new ≡ with_file self.old name.now contents) }
        ensures err { OnErr result (self.new ≡ self.old) }
    {
        let place = self.entries.len() as u8;
        push(&mut self.entries, name, contents)?;
        self.hints[hint_of(name.bytes())] = place;
        Ok(())
    }

    /// Other contents at a place, and those that were there.
    fn replace(&mut self, place: usize, contents: Contents) -> Contents
        requires { place < length self.old }
        ensures { Replaces place contents self.old self.new result }
    {
        mem::replace(&mut self.entries[place].contents, contents)
    }

    /// Puts a file under its name, and gives the contents that it replaced. The contents are moved and not copied.
    pub fn put(&mut self, name: &Name64, contents: Contents) -> Result<Option<Contents>, PutFault>
        ensures { Puts name.now contents self.old self.new result }
    {
        if let Some(place) = self.place_of(name) {
            return Ok(Some(self.replace(place, contents)));
        }
        if self.entries.len() == FILES {
            return Err(PutFault::Full);
        }
        match self.add(name, contents) {
            Ok(()) => Ok(None),
            Err(_) => Err(PutFault::Memory),
        }
    }

    /// Other contents under a name that is there.
    fn put_back(&mut self, name: &Name64, contents: Contents)
        requires { IsSome (contents_of self.old name.now) }
        ensures { self.new ≡ with_file self.old name.now contents }
    {
        let Some(place) = self.place_of(name) else {
            unreachable!();
        };
        let _ = self.replace(place, contents);
    }

    /// Takes back what `put` did to a name, by what it gave. It takes no memory.
    pub fn undo(&mut self, name: &Name64, old: Option<Contents>)
        requires { CanUndo self.old name.now old }
        ensures { self.new ≡ undone self.old name.now old }
    {
        match old {
            Some(contents) => self.put_back(name, contents),
            None => drop_last(&mut self.entries),
        }
    }

    /// The contents of the file of a name.
    pub fn get(&self, name: &Name64) -> Option<&[u8]>
        ensures { option_copied result ≡ contents_of self.now name.now }
    {
        let place = self.place_of(name)?;
        Some(self.entries[place].contents.bytes())
    }

    /// The name at a place, from 0 on, in order of first uplink.
    pub fn list(&self, place: u32) -> Option<&Name64>
        ensures { option_copied result ≡ slice_get (names self.now) place }
    {
        match self.entries.get(place as usize) {
            Some(entry) => Some(&entry.name),
            None => None,
        }
    }

    /// Takes all files away.
    pub fn clear(&mut self)
        ensures { self.new ≡ [] }
    {
        self.entries.clear();
    }
}

//! The drawer of files.

use crate::line::Line;
use file_drawer::{Contents, Drawer, PutFault};
use std::alloc::Global;
use tbl_kinds::{Name, Name64};
use test_tables::{CaseFault, kept};

/// How many bytes the field of a file's name has.
const FIELD: usize = 64;

/// The name that stands in a field.
pub(crate) fn name_in(field: &[u8]) -> Result<Name64, CaseFault> {
    if field.len() > FIELD {
        Err(CaseFault::Unreadable)
    } else {
        Ok(Name::of(field))
    }
}

/// What a file replaced when it was put into the drawer.
pub(crate) fn tell_put(line: &mut Line, put: &Result<Option<Contents>, PutFault>) {
    match put {
        Ok(Some(old)) => line.bytes(old.bytes()),
        Ok(None) => line.word("none"),
        Err(PutFault::Full) => line.word("full"),
        Err(PutFault::Memory) => line.word("out of memory"),
    }
}

/// Puts a file into the drawer and takes it back. The answer is whether it was found there in between.
fn put_and_undo(
    drawer: &mut Drawer,
    name: &Name64,
    file: Contents,
    contents: &[u8],
) -> Result<bool, PutFault> {
    let old = drawer.put(name, file)?;
    let is_there = drawer.get(name) == Some(contents);
    drawer.undo(name, old);
    Ok(is_there)
}

/// A file is put into the drawer, found there, and taken back.
pub(crate) fn try_undone(
    alloc: Global,
    drawer: &mut Drawer,
    name: &[u8],
    contents: &[u8],
) -> Result<(), CaseFault> {
    let name = name_in(name)?;
    let file = Contents::of(kept(alloc, contents)?);
    match put_and_undo(drawer, &name, file, contents) {
        Ok(true) => Ok(()),
        _ => Err(CaseFault::Unreadable),
    }
}

/// The contents of a file.
pub(crate) fn tell_get(line: &mut Line, drawer: &Drawer, name: &[u8]) -> Result<(), CaseFault> {
    let name = name_in(name)?;
    match drawer.get(&name) {
        Some(contents) => line.bytes(contents),
        None => line.word("none"),
    }
    Ok(())
}

/// The name at a place.
pub(crate) fn tell_list(line: &mut Line, drawer: &Drawer, place: u32) {
    match drawer.list(place) {
        Some(name) => line.name(name.bytes()),
        None => line.word("none"),
    }
}

/// A drawer without files.
pub(crate) fn empty_drawer(alloc: Global) -> Result<Drawer, CaseFault> {
    Ok(Drawer::make(alloc)?)
}

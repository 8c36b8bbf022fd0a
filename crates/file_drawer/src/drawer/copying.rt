//! The files once more.

ghost use Rattle.std.specs.Prelude.{◌≡◌, IfOk};

use super::{Drawer, Entry, FILES};
use std::alloc::Global;
use tbl_kinds::Memory;

impl Entry {
    /// The same file under the same name.
    fn duplicate(&self) -> Result<Entry, Memory>
        ensures { IfOk result (λ copy. copy ≡ self.now) }
    {
        Ok(Entry {
            name: self.name.copy(),
            contents: self.contents.duplicate()?,
        })
    }
}

/// The same files, with room for as many as there can be.
fn copy_all(alloc: Global, entries: &[Entry]) -> Result<Vec<Entry>, Memory>
    ensures { IfOk result (λ copies. copies.items ≡ entries.now) }
{
    let mut copies = Vec::with_capacity(alloc, FILES)?;
    for entry in entries {
        copies.push(entry.duplicate()?)?;
    }
    Ok(copies)
}

impl Drawer {
    /// The same files in the same order. Bytes that others have already are in the same memory, and all others are copied. An Err means
    /// out of memory.
    pub fn duplicate(&self, alloc: Global) -> Result<Drawer, Memory>
        ensures { IfOk result (λ copy. copy ≡ self.now) }
    {
        Ok(Drawer {
            entries: copy_all(alloc, &self.entries)?,
            hints: self.hints,
        })
    }
}

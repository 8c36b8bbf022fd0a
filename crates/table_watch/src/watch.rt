//! The looks so far.

ghost use Rattle.std.specs.Prelude.{◌≡◌, [], IfOk};
ghost use Rattle.tbl_kinds.specs.Check.{check16};
ghost use Rattle.table_watch.specs.Looks.{Notes, seen_after};
ghost use Rattle.table_watch.specs.Report.{report};

use crate::report::write_report;
use check_word::check16;
use indexmap::IndexMap;
use std::alloc::Global;
use std::marker::Model;
use tbl_kinds::{Bytes, Memory, Name40};
use tbl_registry::Pin;

/// What a look saw of an image's check word, compared with that of the latest look before at a table of the same full name.
#[derive(Clone, Copy, Debug, PartialEq, Eq)]
pub enum Seen {
    /// No table of that name was looked at before.
    First,
    /// It is what it was.
    Same {
        /// The check word.
        word: u16,
    },
    /// It is another one.
    Changed {
        /// The check word before.
        old: u16,
        /// The check word now.
        new: u16,
    },
}

/// A look: the place of the entry that got the image, the table, the check word, and the one before.
#[derive(Drop)]
pub(crate) struct Look {
    pub(crate) place: u64,
    pub(crate) name: Name40,
    pub(crate) word: u16,
    pub(crate) before: Option<u16>,
}

/// The looks so far, and the check word of the latest one for each full name, which is found by hash. A look keeps no image.
#[derive(Drop)]
pub struct Watch {
    alloc: Global,
    looks: Vec<Look>,
    words: IndexMap<Name40, u16>,
}

impl Model for Watch {
    ghost use Rattle.std.specs.Prelude.{◌≡◌, ℕ, List};
    ghost use Rattle.std.specs.Str.{bytes_eq};
    ghost use Rattle.indexmap.specs.IndexMap.{get};
    ghost use Rattle.table_watch.specs.Looks.{latest_word};
    ghost use Rattle.table_watch.specs.declared.watch.Look.{Look};

    ghost Value = { List Look };

    ghost view = { λ w. w.looks.items };

    ghost invariant = { λ w. (name : List ℕ) → get bytes_eq w.words name ≡ latest_word w.looks.items name };
}

/// What is seen of a check word compared with the one before.
fn seen_after(before: Option<u16>, word: u16) -> Seen
    ensures { result ≡ seen_after before word }
{
    match before {
        None => Seen::First,
        Some(old) if old == word => Seen::Same { word },
        Some(old) => Seen::Changed { old, new: word },
    }
}

impl Watch {
    /// Nothing was looked at.
    pub fn make(alloc: Global) -> Result<Watch, Memory>
        ensures { IfOk result (λ watch. watch ≡ []) }
    {
        Ok(Watch {
            alloc,
            looks: Vec::new(alloc),
            words: IndexMap::new(alloc),
        })
    }

    /// Looks at an image that was lent: makes its check word, which reads all of its bytes, and compares it with that of the latest
    /// look before at a table of the same full name. An Err is out of memory.
    pub fn look(&mut self, pin: &Pin) -> Result<Seen, Memory>
        ensures { Notes pin.now.place pin.now.name (check16 pin.now.bytes) self.old self.new result }
    {
        self.note(pin.place(), pin.name(), check16(pin.bytes()))
    }

    /// Notes a check word, and answers what was seen. An Err is out of memory.
    fn note(&mut self, place: u64, name: &Name40, word: u16) -> Result<Seen, Memory>
        ensures { Notes place name.now word self.old self.new result }
    {
        self.looks.reserve(1)?;
        let Ok(before) = self.words.insert(name.copy(), word) else {
            return Err(Memory);
        };
        self.looks.push_reserved(Look {
            place,
            name: name.copy(),
            word,
            before,
        });
        Ok(seen_after(before, word))
    }

    /// The report: a line for each look in order, and then `watched N changed C`. An Err is out of memory.
    pub fn text(&self) -> Result<Bytes, Memory>
        ensures { IfOk result (λ text. text.list ≡ report self.now) }
    {
        write_report(self.alloc, self.looks.as_slice())
    }
}

ghost use Rattle.std.specs.Prelude.{◌≡◌, ◌<◌, ◌≤◌, None, IfOk, IfSome, length};
ghost use Rattle.tbl_kinds.specs.Free.{least_free};
ghost use Rattle.tbl_model.specs.State.{no_tables};
ghost use Rattle.tbl_model.specs.Tables.{table_count, load_count, critical_count};
ghost use Rattle.tbl_model.specs.TableSteps.{find};
ghost use Rattle.tbl_registry.specs.Asked.{HasTable};
ghost use Rattle.tbl_registry.specs.Adding.{IsPlan, Adds};
ghost use Rattle.tbl_registry.specs.Images.{most_images};

use self::counts::Counts;
use crate::row::{NewTable, Row};
use crate::rows::{critical_in, free_row, free_rows, is_named, most_images_in, row_of_name};
use access_desc::Handles;
use std::alloc::Global;
use std::marker::Model;
use tbl_kinds::Memory;

mod copying;
mod counts;
mod dumps;
mod ends;
mod handles;
mod images;
mod making;
mod pinned;
mod views;
mod words;

/// Why a table isn't registered. Nothing was changed.
#[derive(Clone, Copy, Debug, PartialEq, Eq, Drop, thiserror::Error)]
pub enum AddFault {
    /// 128 tables are registered.
    #[error("128 tables are registered")]
    RegistryFull,
    /// 256 handles are given.
    #[error("256 handles are given")]
    HandlesFull,
    /// Out of memory. A table without an image takes none.
    #[error("out of memory")]
    Memory,
}

/// The registered tables and the handles on them.
#[derive(Drop)]
pub struct Tables {
    rows: Vec<Option<Row>>,
    handles: Handles,
    counts: Counts,
    /// For each number that `hint_of` gives, the row where the latest table with such a name was registered.
    hints: [u8; HINTS],
}

/// How many numbers `hint_of` gives.
const HINTS: usize = 256;

/// A number that few names share, made of their length and their last bytes. It only says which row is looked at first.
fn hint_of(name: &[u8]) -> usize
    ensures { result < 256 }
{
    let len = name.len();
    if len < 3 {
        return 0;
    }
    let hundreds = 100 * usize::from(name[len - 3]);
    let tens = 10 * usize::from(name[len - 2]);
    (64 * (len % 4) + hundreds + tens + usize::from(name[len - 1])) % HINTS
}

impl Model for Tables {
    ghost use Rattle.tbl_model.specs.State.{Tables};

    ghost Value = { Tables };

    ghost use Rattle.tbl_registry.specs.Seen.{tables_of};
    ghost use Rattle.tbl_registry.specs.Sound.{IsKept};

    ghost view = { λ t. tables_of t.rows.items t.handles };

    ghost invariant = { λ t. IsKept t.rows.items t.handles t.counts };
}

impl Tables {
    /// No table and no handle. All memory that the calls below need, except that of images, is taken here, so that none of them can run out
    /// of it when a table has half changed.
    pub fn make(alloc: Global) -> Result<Tables, Memory>
        ensures { IfOk result (λ t. t ≡ no_tables) }
    {
        Ok(Tables {
            rows: free_rows(alloc)?,
            handles: Handles::make(alloc)?,
            counts: Counts::none(),
            hints: [0; HINTS],
        })
    }

    /// The row of the table of this full name.
    pub fn find(&self, name: &[u8]) -> Option<u8>
        ensures row { result ≡ find name.now self.now }
        ensures table { IfSome result (λ row. HasTable row self.now) }
        ensures within { IfSome result (λ row. row < 128) }
    {
        let hint = self.hints[hint_of(name)];
        if is_named(&self.rows, hint, name) {
            return Some(hint);
        }
        match row_of_name(&self.rows, name) {
            Some(row) => Some(row as u8),
            None => None,
        }
    }

    /// How many rows there are: their numbers are below it.
    pub fn row_limit(&self) -> u8
        ensures limit { result ≡ length self.now.rows }
        ensures rows { result ≡ 128 }
    {
        self.rows.len() as u8
    }

    /// How many tables are registered.
    pub fn count(&self) -> u16
        ensures tables { result ≡ table_count self.now }
        ensures within { result ≤ 128 }
    {
        self.counts.tables
    }

    /// How many loads are open.
    pub fn load_count(&self) -> u16
        ensures loads { result ≡ load_count self.now }
        ensures within { result ≤ 128 }
    {
        self.counts.loads
    }

    /// How many tables are critical.
    pub fn critical_count(&self) -> u16
        ensures tables { result ≡ critical_count self.now }
        ensures within { result ≤ 128 }
    {
        critical_in(&self.rows)
    }

    /// The most images that a table has had since it was registered, 0 if there is no table.
    pub fn most_images(&self) -> u32
        ensures { result ≡ most_images self.now }
    {
        most_images_in(&self.rows)
    }

    /// The row that the next table takes: the least free one.
    pub fn next_row(&self) -> Option<u8>
        ensures { result ≡ least_free self.now.rows }
    {
        free_row(&self.rows)
    }

    /// The number of the next handle: the least free one.
    pub fn next_handle(&self) -> Option<u16>
        ensures { result ≡ least_free self.now.handles }
    {
        self.handles.next()
    }

    /// Registers a table in the least free row, and gives its owner the least free handle on it. A dump-only table has one buffer.
    pub fn add(&mut self, app: u8, plan: NewTable) -> Result<u16, AddFault>
        requires plan { IsPlan plan }
        requires new { find plan.name self.old ≡ None }
        ensures { Adds app plan self.old self.new result }
    {
        // The row is looked for first: a handle that was given before it would have to be taken back.
        let Some(row) = free_row(&self.rows) else {
            return Err(AddFault::RegistryFull);
        };
        let Some(handle) = self.handles.add(app, row) else {
            return Err(AddFault::HandlesFull);
        };
        self.hints[hint_of(plan.name.bytes())] = row;
        let table = Row::make(app, handle, plan);
        self.counts.enter(&table);
        self.rows[row as usize] = Some(table);
        Ok(handle)
    }
}

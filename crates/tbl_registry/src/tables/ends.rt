//! How tables go.

ghost use Rattle.std.specs.Prelude.{◌≡◌};
ghost use Rattle.tbl_model.specs.State.{no_tables};
ghost use Rattle.tbl_model.specs.TableSteps.{remove};
ghost use Rattle.tbl_registry.specs.Asked.{HasTable};

use super::Tables;
use super::counts::Counts;
use crate::rows::{free_all, table_in};

impl Tables {
    /// The table of a row is gone, and its handles lead to none. The buffer that it used is free again.
    pub fn remove(&mut self, row: u8)
        requires { HasTable row self.old }
        ensures { self.new ≡ remove row self.old }
    {
        let Some(table) = table_in(&self.rows, row) else {
            unreachable!();
        };
        self.counts.leave(table);
        self.handles.orphan(row);
        self.rows[row as usize] = None;
    }

    /// No table and no handle any more, and all buffers are free. It takes no memory.
    pub fn clear(&mut self)
        ensures { self.new ≡ no_tables }
    {
        free_all(&mut self.rows);
        self.handles.clear();
        self.counts = Counts::none();
    }
}

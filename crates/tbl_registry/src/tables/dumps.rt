//! Dumps of dump-only tables: the ground asks for one, the owner fills it, and it comes to its end.

ghost use Rattle.std.specs.Prelude.{◌≡◌};
ghost use Rattle.tbl_model.specs.TableSteps.{ask_dump, fill_dump, end_dump};
ghost use Rattle.tbl_registry.specs.Asked.{HasTable, TakesDump};

use super::Tables;
use tbl_kinds::Name64;

impl Tables {
    /// A dump of the table of a row is requested, as a file of this name. It takes a shared buffer.
    pub fn ask_dump(&mut self, row: u8, file: &Name64)
        requires { TakesDump row self.old }
        ensures { self.new ≡ ask_dump row file.now self.old }
    {
        let Some(table) = &mut self.rows[row as usize] else {
            unreachable!();
        };
        self.counts.leave(table);
        table.ask_dump(file);
        self.counts.enter(table);
    }

    /// The requested dump of the table of a row is filled with its last image. It takes no memory.
    pub fn fill_dump(&mut self, row: u8)
        requires { HasTable row self.old }
        ensures { self.new ≡ fill_dump row self.old }
    {
        let Some(table) = &mut self.rows[row as usize] else {
            unreachable!();
        };
        table.fill_dump();
    }

    /// The dump of the table of a row is over, and the buffer that it used is free again.
    pub fn end_dump(&mut self, row: u8)
        requires { HasTable row self.old }
        ensures { self.new ≡ end_dump row self.old }
    {
        let Some(table) = &mut self.rows[row as usize] else {
            unreachable!();
        };
        self.counts.leave(table);
        table.end_dump();
        self.counts.enter(table);
    }
}

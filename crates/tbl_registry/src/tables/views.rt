//! What can be seen of the table of a row, and who has the shared buffers.

ghost use Rattle.std.specs.Prelude.{◌≡◌, ◌==◌, ◌++◌, ◌≤◌, ◌+◌, length, option_and_then};
ghost use Rattle.std.specs.Option.{option_copied, option_map, ForSome};
ghost use Rattle.tbl_kinds.specs.Telemetry.{registry_record};
ghost use Rattle.tbl_model.specs.State.{Table};
ghost use Rattle.tbl_model.specs.Tables.{in_use, table_at};
ghost use Rattle.tbl_model.specs.Registry.{registry_row};
ghost use Rattle.tbl_model.specs.Validations.{selected};
ghost use Rattle.tbl_registry.specs.Asked.{HasTable};
ghost use Rattle.tbl_registry.specs.Seen.{padded};
ghost use Rattle.tbl_registry.specs.Shown.{ShowsRow, ShowsPart, ShowsFilled, last_of, loaded_of};
ghost use Rattle.tbl_registry.specs.Views.{dump_name};

use super::Tables;
use crate::row::{RECORD_LENGTH, RowView};
use crate::rows::{rows_with_buffer, table_in};
use tbl_kinds::{Bytes, Name40, Name64};

impl Tables {
    /// What can be seen of the table of a row.
    pub fn row(&self, row: u8) -> Option<RowView>
        ensures { ShowsRow result row self.now }
    {
        Some(table_in(&self.rows, row)?.view())
    }

    /// Which image of the table of a row the ground means by a selector: the last one by 1, that of the open load by 0. A dump-only table
    /// has only one image. None for any other selector.
    pub fn selected(&self, row: u8, select: u16) -> Option<bool>
        requires { HasTable row self.now }
        ensures { ForSome (table_at self.now row) (λ t. result ≡ selected t select) }
    {
        let Some(table) = table_in(&self.rows, row) else {
            unreachable!();
        };
        // Any other selector is refused for a dump-only table too, though it has only one image.
        if select > 1 {
            return None;
        }
        Some(table.is_dump_only() || select == 1)
    }

    /// The record of the table of a row, as the registry gives it (`CFE_TBL_GetInfo`).
    #[inline]
    pub fn record(&self, row: u8) -> [u8; RECORD_LENGTH]
        requires { HasTable row self.now }
        ensures record { ForSome (table_at self.now row) (λ t. result ≡ registry_record (registry_row t)) }
        ensures len { ForSome (table_at self.now row) (λ t. length (registry_record (registry_row t)) ≡ 144) }
    {
        let Some(table) = table_in(&self.rows, row) else {
            unreachable!();
        };
        table.record()
    }

    /// Appends the record of the table of a row, 144 bytes.
    pub fn write_info(&self, row: u8, out: &mut Bytes)
        requires table { HasTable row self.now }
        requires room { 144 ≤ out.old.spare }
        ensures bytes { ForSome (table_at self.now row) (λ t. out.new.list ≡ out.old.list ++ registry_record (registry_row t)) }
        ensures room { out.old.spare ≤ out.new.spare + 144 }
        ensures len { length out.new.list ≡ length out.old.list + 144 }
    {
        out.append(&self.record(row));
    }

    /// The full name of the table of a row.
    pub fn name(&self, row: u8) -> Option<&Name40>
        ensures { option_copied result ≡ option_map (λ (t : Table). t.name) (table_at self.now row) }
    {
        Some(table_in(&self.rows, row)?.name())
    }

    /// The last image of the table of a row, None if there is none.
    pub(super) fn last(&self, row: u8) -> Option<&[u8]>
        ensures { ShowsPart result last_of (table_at self.now row) }
    {
        Some(table_in(&self.rows, row)?.whole(false)?.bytes())
    }

    /// The image of the open load of the table of a row, None if there is none.
    pub fn load(&self, row: u8) -> Option<&[u8]>
        ensures { ShowsPart result loaded_of (table_at self.now row) }
    {
        table_in(&self.rows, row)?.load()
    }

    /// The name of the file of the pending dump of the table of a row, None if no dump is pending.
    pub fn dump_name(&self, row: u8) -> Option<&Name64>
        ensures { option_copied result ≡ option_and_then (λ (t : Table). dump_name t.dump) (table_at self.now row) }
    {
        table_in(&self.rows, row)?.dump_name()
    }

    /// The image of the filled dump of the table of a row, None if no dump is filled.
    pub fn filled(&self, row: u8) -> Option<&[u8]>
        ensures { ShowsFilled result (table_at self.now row) }
    {
        table_in(&self.rows, row)?.filled()
    }

    /// The rows that use the shared working buffers, ascending, and then None.
    pub fn in_use(&self) -> [Option<u8>; 4]
        ensures rows { result ≡ padded (in_use self.now) }
        ensures within { length (in_use self.now) ≤ 4 }
    {
        if self.counts.users == 0 {
            return [None; 4];
        }
        rows_with_buffer(&self.rows)
    }

    /// Whether all four shared working buffers are used.
    pub fn all_buffers_used(&self) -> bool
        ensures all { result ≡ (length (in_use self.now) == 4) }
        ensures few { length (in_use self.now) ≤ 4 }
    {
        self.counts.users == 4
    }
}

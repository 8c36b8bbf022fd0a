//! What applications do with handles on tables.

ghost use Rattle.std.specs.Prelude.{◌≡◌, ◌<◌, [], None, IsSome, IfOk, OnOk, IfSome, OnSome, IfNone, if◌then◌else◌, nat_lt, length, position, option_and_then};
ghost use Rattle.std.specs.Option.{option_map, ForSome};
ghost use Rattle.tbl_model.specs.State.{Table, Handle};
ghost use Rattle.tbl_model.specs.Management.{pending_status};
ghost use Rattle.tbl_kinds.specs.Free.{least_free};
ghost use Rattle.tbl_model.specs.Tables.{table_at};
ghost use Rattle.tbl_model.specs.TableSteps.{check, handle_at, access_of, locker, new_handle, with_handle, give_back, registered_by};
ghost use Rattle.tbl_model.specs.AddressSteps.{get_address, release};
ghost use Rattle.access_desc.specs.Steps.{has, pins, pins_old};
ghost use Rattle.tbl_registry.specs.Asked.{HasTable};
ghost use Rattle.tbl_registry.specs.Lending.{IsMade};
ghost use Rattle.tbl_registry.specs.Pins.{Leading};
ghost use Rattle.tbl_registry.specs.Seen.{handle_of, tables_of, is_kept, drop_before_unless};

use super::Tables;
use crate::row::Row;
use crate::rows::table_in;
use access_desc::{HandleView, Handles};
use tbl_kinds::{Answer, Status};

/// What a handle represents, with its table's row and its table.
pub(super) fn access<'a>(
    rows: &'a [Option<Row>],
    handles: &Handles,
    handle: u16,
) -> Option<(HandleView, u8, &'a Row)>
    ensures leads { IfSome result (λ found. Leading rows.now handles.now handle found.0 found.1 found.2.now) }
    ensures none { IfNone result (access_of (tables_of rows.now handles.now) handle ≡ None) }
    ensures within { OnSome result (handle < 256) }
{
    let view = handles.view(handle)?;
    let row = view.row?;
    let table = table_in(rows, row)?;
    Some((view, row, table))
}

/// Drops the image before the last of this row's table, unless a handle pins it.
pub(super) fn drop_before(table: &mut Row, handles: &Handles, row: u8)
    ensures { table.new ≡ drop_before_unless (is_kept row handles.now) table.old }
{
    if table.has_before() && handles.pinned_old(row).is_none() {
        table.drop_before();
    }
}

/// The least handle that pins an image of this row's table, or one that isn't the last.
fn first_in_way(handles: &Handles, row: u8, old_only: bool) -> Option<u16>
    ensures { result ≡ position (λ place. if old_only then has (pins_old row) place else has (pins row) place) handles.now }
{
    if old_only {
        handles.pinned_old(row)
    } else {
        handles.pinned_any(row)
    }
}

/// Whether the table has an image that its handle doesn't know of yet, as a status.
fn update_status(told: u32, count: u32) -> Status
    ensures { result ≡ (if nat_lt told count then Status.INFO_UPDATED else Status.SUCCESS) }
{
    if told < count {
        Status::INFO_UPDATED
    } else {
        Status::SUCCESS
    }
}

impl Tables {
    /// Whether the application may use the handle, and the row of its table.
    pub fn check(&self, app: u8, handle: u16, owner: bool) -> Result<u8, Status>
        ensures answer { result ≡ check self.now app handle owner }
        ensures table { IfOk result (λ row. HasTable row self.now) }
        ensures access { OnOk result (IsSome (access_of self.now handle)) }
    {
        let view = self.handles.view(handle).ok_or(Status::ERR_INVALID_HANDLE)?;
        if view.app != app {
            return Err(Status::ERR_NO_ACCESS);
        }
        let row = view.row.ok_or(Status::ERR_UNREGISTERED)?;
        if owner && self.owner(row) != Some(app) {
            return Err(Status::ERR_NO_ACCESS);
        }
        Ok(row)
    }

    /// Who owns the table of a row.
    fn owner(&self, row: u8) -> Option<u8>
        ensures { result ≡ option_map (λ (t : Table). t.owner) (table_at self.now row) }
    {
        Some(table_in(&self.rows, row)?.view().owner)
    }

    /// Gives an application a further handle on the table of a row: the least free one, None if 256 are given. It knows of no image, and
    /// pins none.
    pub fn new_handle(&mut self, app: u8, row: u8) -> Option<u16>
        requires { HasTable row self.old }
        ensures least_free { result ≡ least_free self.old.handles }
        ensures given { IfSome result (λ handle. self.new ≡ with_handle handle (new_handle app row) self.old) }
        ensures full { IfNone result (self.new ≡ self.old) }
    {
        let handle = self.handles.add(app, row)?;
        Some(handle)
    }

    /// Takes a handle back, whose number is free again. Its pin ends.
    pub fn free_handle(&mut self, handle: u16)
        requires { IsSome (handle_at self.old handle) }
        ensures { self.new ≡ give_back handle self.old }
    {
        let Some(view) = self.handles.view(handle) else {
            unreachable!();
        };
        self.handles.drop_handle(handle);
        let Some(row) = view.row else {
            return;
        };
        let Some(table) = &mut self.rows[row as usize] else {
            unreachable!();
        };
        drop_before(table, &self.handles, row);
    }

    /// The row of the table that this handle registered, None for a further handle, or if the handle leads to no table.
    pub fn registered_by(&self, handle: u16) -> Option<u8>
        ensures row { result ≡ registered_by self.now handle }
        ensures table { IfSome result (λ row. HasTable row self.now) }
    {
        let (_, row, table) = access(&self.rows, &self.handles, handle)?;
        if table.view().handle == handle {
            Some(row)
        } else {
            None
        }
    }

    /// The application that a handle was given to, None if no such handle is given.
    pub fn app_of(&self, handle: u16) -> Option<u8>
        ensures { result ≡ option_map (λ (h : Handle). h.app) (handle_at self.now handle) }
    {
        Some(self.handles.view(handle)?.app)
    }

    /// How many handles there can be: their numbers are below it.
    pub fn handle_limit(&self) -> u16
        ensures { result ≡ length self.now.handles }
    {
        self.handles.limit()
    }

    /// What is pending for the table of a handle, as `CFE_TBL_GetStatus` gives it, if no validation is.
    pub fn status(&self, handle: u16) -> Answer
        requires { IsSome (access_of self.now handle) }
        ensures status { ForSome (access_of self.now handle) (λ a. result.status ≡ pending_status [] a.row a.table) }
        ensures detail { result.detail ≡ 0 }
    {
        let Some((_, _, table)) = access(&self.rows, &self.handles, handle) else {
            unreachable!();
        };
        Answer::plain(table.pending())
    }

    /// What a handle represents, None if no such handle is given.
    pub fn handle(&self, handle: u16) -> Option<HandleView>
        ensures { handle_at self.now handle ≡ option_map (handle_of self.now.rows) result }
    {
        self.handles.view(handle)
    }

    /// The handle pins the last image of its table and knows of it.
    pub fn get_address(&mut self, handle: u16) -> Answer
        requires { IsSome (access_of self.old handle) }
        ensures { IsMade (get_address handle self.old) result self.new }
    {
        let Some((view, _, table)) = access(&self.rows, &self.handles, handle) else {
            unreachable!();
        };
        let count = table.count();
        if view.pinned {
            return Answer::plain(Status::ERR_ALREADY_PINNED);
        }
        if count == 0 {
            return Answer::plain(Status::ERR_NEVER_LOADED);
        }
        self.handles.pin(handle);
        self.handles.tell(handle, count);
        Answer::plain(update_status(view.told, count))
    }

    /// The pin of the handle ends.
    pub fn release(&mut self, handle: u16) -> Answer
        requires { IsSome (access_of self.old handle) }
        ensures { IsMade (release handle self.old) result self.new }
    {
        let Some((view, row, table)) = access(&self.rows, &self.handles, handle) else {
            unreachable!();
        };
        let count = table.count();
        if !view.pinned {
            return Answer::plain(Status::ERR_NOT_PINNED);
        }
        let Some(table) = &mut self.rows[row as usize] else {
            unreachable!();
        };
        // The pin ends first: the image before the last goes with the last pin of it.
        self.handles.unpin(handle);
        drop_before(table, &self.handles, row);
        Answer::plain(update_status(view.told, count))
    }

    /// The least handle in the way of a new image of the table of a row (cFE User's Guide, Table Services, "Locking").
    pub fn locker(&self, row: u8) -> Option<u16>
        ensures least { result ≡ option_and_then (λ (t : Table). locker self.now row t) (table_at self.now row) }
    {
        // With two buffers a new image leaves the last one where it is, so only pins of the image before are in its way.
        let table = table_in(&self.rows, row)?;
        first_in_way(&self.handles, row, table.is_double())
    }
}

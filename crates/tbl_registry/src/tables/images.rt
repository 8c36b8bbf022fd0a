//! How the images of tables and of their open loads change.

ghost use Rattle.std.specs.Prelude.{◌≡◌, ◌<◌, ◌-◌, ◌^◌, if◌then◌else◌, length, map};
ghost use Rattle.std.specs.Option.{option_map};
ghost use Rattle.tbl_model.specs.TableSteps.{put, set_time, set_file, set_load, patch, set_checked, ask, close_load, activate, set_notice, not_critical};
ghost use Rattle.access_desc.specs.Steps.{after_new_image};
ghost use Rattle.tbl_registry.specs.Asked.{HasTable, HasOpenLoad, IsUnlocked, IsInside, CanHaveMore, TakesImage, TakesLoad};
ghost use Rattle.tbl_registry.specs.Rows.{IsTable};
ghost use Rattle.tbl_registry.specs.Seen.{is_kept, with_next};

use super::Tables;
use super::handles::drop_before;
use crate::row::Row;
use access_desc::Handles;
use buffer_pairs::Image;
use tbl_kinds::Name64;
use tbl_model::Notice;

/// The table takes an image as its last one. Its pins are of the image before from then on, which is dropped if there are none. Of a table
/// with a single buffer nobody may pin an image.
fn take_image(table: &mut Row, handles: &mut Handles, row: u8, image: Image)
    requires size { length image ≡ table.old.size }
    requires count { table.old.count < 2 ^ 32 - 1 }
    ensures well { IsTable table.old }
    ensures handles { handles.new ≡ map (option_map (after_new_image row)) handles.old }
    ensures table { table.new ≡ with_next table.old image (is_kept row handles.new) }
{
    // With two buffers the image that was the last stays in the place before it until the pins say that nobody has it.
    table.put(image);
    handles.moved(row);
    drop_before(table, handles, row);
}

impl Tables {
    /// An image becomes the last one of the table of a row.
    pub fn put(&mut self, row: u8, image: Image)
        requires takes { TakesImage row image self.old }
        requires unlocked { IsUnlocked row self.old }
        ensures tables { self.new ≡ put row image self.old }
        ensures table { HasTable row self.new }
    {
        let Some(table) = &mut self.rows[row as usize] else {
            unreachable!();
        };
        take_image(table, &mut self.handles, row, image);
    }

    /// Opens a load of the table of a row with this image, or replaces the image of the open load by it. It isn't validated any more.
    pub fn set_load(&mut self, row: u8, image: Image)
        requires { TakesLoad row image self.old }
        ensures { self.new ≡ set_load row image self.old }
    {
        let Some(table) = &mut self.rows[row as usize] else {
            unreachable!();
        };
        self.counts.leave(table);
        table.set_load(image);
        self.counts.enter(table);
    }

    /// Writes bytes into the open load of the table of a row, in place, if nobody else has the load's image. Whether it did: if so, the
    /// load isn't validated any more, and else nothing was changed.
    pub fn write_load(&mut self, row: u8, offset: u32, bytes: &[u8]) -> bool
        requires load { HasOpenLoad row self.old }
        requires within { IsInside row offset bytes.now self.old }
        ensures { self.new ≡ (if result then patch row offset bytes.now self.old else self.old) }
    {
        let Some(table) = &mut self.rows[row as usize] else {
            unreachable!();
        };
        table.write_load(offset, bytes)
    }

    /// Closes the open load of the table of a row. Its activation isn't requested any more.
    pub fn close_load(&mut self, row: u8)
        requires { HasOpenLoad row self.old }
        ensures { self.new ≡ close_load row self.old }
    {
        let Some(table) = &mut self.rows[row as usize] else {
            unreachable!();
        };
        self.counts.leave(table);
        let _ = table.end_load();
        self.counts.enter(table);
    }

    /// The image of the open load becomes the last one of the table of a row, and the load is closed.
    pub fn activate(&mut self, row: u8)
        requires load { HasOpenLoad row self.old }
        requires unlocked { IsUnlocked row self.old }
        requires count { CanHaveMore row self.old }
        ensures tables { self.new ≡ activate row self.old }
        ensures table { HasTable row self.new }
    {
        let Some(table) = &mut self.rows[row as usize] else {
            unreachable!();
        };
        self.counts.leave(table);
        let Some(load) = table.end_load() else {
            unreachable!();
        };
        take_image(table, &mut self.handles, row, load);
        self.counts.enter(table);
    }

    /// The activation of the open load of the table of a row is requested.
    pub fn ask(&mut self, row: u8)
        requires { HasOpenLoad row self.old }
        ensures { self.new ≡ ask row self.old }
    {
        let Some(table) = &mut self.rows[row as usize] else {
            unreachable!();
        };
        table.ask();
    }

    /// Sets the notice of pending work to the owner of the table of a row.
    pub fn set_notice(&mut self, row: u8, notice: Notice)
        requires { HasTable row self.old }
        ensures { self.new ≡ set_notice row notice self.old }
    {
        let Some(table) = &mut self.rows[row as usize] else {
            unreachable!();
        };
        table.set_notice(notice);
    }

    /// Marks the open load of the table of a row as validated since its last change, or takes the mark away.
    pub fn set_checked(&mut self, row: u8, checked: bool)
        requires { HasOpenLoad row self.old }
        ensures { self.new ≡ set_checked row checked self.old }
    {
        let Some(table) = &mut self.rows[row as usize] else {
            unreachable!();
        };
        table.set_checked(checked);
    }

    /// The table of a row isn't critical any more.
    pub fn not_critical(&mut self, row: u8)
        requires { HasTable row self.old }
        ensures { self.new ≡ not_critical row self.old }
    {
        let Some(table) = &mut self.rows[row as usize] else {
            unreachable!();
        };
        table.not_critical();
    }

    /// The time of the last update of the table of a row.
    pub fn set_time(&mut self, row: u8, seconds: u32, sub: u16)
        requires { HasTable row self.old }
        ensures { self.new ≡ set_time row seconds sub self.old }
    {
        let Some(table) = &mut self.rows[row as usize] else {
            unreachable!();
        };
        table.set_time(seconds, sub);
    }

    /// Sets the file of the last load from a file of the table of a row.
    pub fn set_file(&mut self, row: u8, file: &Name64)
        requires { HasTable row self.old }
        ensures { self.new ≡ set_file row file.now self.old }
    {
        let Some(table) = &mut self.rows[row as usize] else {
            unreachable!();
        };
        table.set_file(file);
    }
}

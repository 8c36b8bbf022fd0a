//! The images that loads and edits make of those of a table.

ghost use Rattle.std.specs.Prelude.{◌≡◌, ◌+◌, ◌<◌, ◌≤◌, length, replicate, IfOk};
ghost use Rattle.std.specs.Option.{ForSome};
ghost use Rattle.tbl_kinds.specs.Numbers.{patched};
ghost use Rattle.tbl_model.specs.Tables.{table_at};
ghost use Rattle.tbl_model.specs.TableSteps.{base};
ghost use Rattle.tbl_registry.specs.Asked.{HasTable, IsInside};
ghost use Rattle.tbl_registry.specs.Shown.{ShowsImage, ShowsBase};

use super::Tables;
use crate::row::Row;
use crate::rows::table_in;
use buffer_pairs::Image;
use std::alloc::{AllocError, Global};
use tbl_kinds::Memory;

/// As many zeros as an image has bytes.
fn zeros(alloc: Global, size: u32) -> Result<Vec<u8>, AllocError>
    ensures { IfOk result (λ zeros. zeros.items ≡ replicate size 0) }
{
    vec![in alloc; 0; size as usize]
}

/// An image of this size that has these bytes from an offset on, and else zeros.
fn over_zeros(alloc: Global, size: u32, offset: u32, bytes: &[u8]) -> Result<Image, Memory>
    requires { offset + length bytes.now ≤ size }
    ensures image { IfOk result (λ image. image ≡ patched (replicate size 0) offset bytes.now) }
    ensures size { IfOk result (λ image. length image ≡ size) }
{
    let zeros = zeros(alloc, size)?;
    Image::patched(alloc, &zeros, offset, bytes)
}

/// An image that the table of the row doesn't have any more, for the memory of its bytes.
fn spare_of(row: &mut Option<Row>) -> Option<Image>
    ensures { row.new ≡ row.old }
{
    match row {
        Some(table) => table.take_spare(),
        None => None,
    }
}

/// The same of the row of this number.
#[tactic(auto, using(crate::proofs::Spares::read_back))]
fn take_spare(rows: &mut [Option<Row>], row: usize) -> Option<Image>
    requires { row < length rows.old }
    ensures { rows.new ≡ rows.old }
{
    spare_of(&mut rows[row])
}

impl Tables {
    /// The last image of the table of a row (`active`), or that of its open load. None if there is none.
    pub fn image(&self, row: u8, active: bool) -> Option<&[u8]>
        ensures { ShowsImage result active (table_at self.now row) }
    {
        let table = table_in(&self.rows, row)?;
        if active {
            return Some(table.whole(false)?.bytes());
        }
        table.load()
    }

    /// What a load of the table of a row begins with: the image of its open load, or its last one. None stands for zeros.
    fn base(&self, row: u8) -> Option<&[u8]>
        ensures { ShowsBase result (table_at self.now row) }
    {
        match self.load(row) {
            Some(image) => Some(image),
            None => self.last(row),
        }
    }

    /// A new image of these bytes for the table of a row. It takes the memory of one that the table had before, if nobody has that any more
    /// and it isn't long.
    pub fn whole_image(&mut self, alloc: Global, row: u8, bytes: &[u8]) -> Result<Image, Memory>
        requires { HasTable row self.old }
        ensures image { IfOk result (λ image. image ≡ bytes.now) }
        ensures same { self.new ≡ self.old }
    {
        let spare = take_spare(&mut self.rows, row as usize);
        Image::over(alloc, spare, bytes)
    }

    /// A new image for the table of a row: that of its open load, else its last one, else zeros, with these bytes over some
    /// of it. No byte is zeroed or copied that another is written over: bytes for the whole of it are the image.
    #[tactic(auto, using(crate::proofs::Whole::whole_over_base))]
    pub fn patched(
        &mut self,
        alloc: Global,
        row: u8,
        offset: u32,
        bytes: &[u8],
    ) -> Result<Image, Memory>
        requires table { HasTable row self.old }
        requires within { IsInside row offset bytes.now self.old }
        ensures image { IfOk result (λ image. ForSome (table_at self.old row) (λ t. image ≡ patched (base t) offset bytes.now)) }
        ensures size { IfOk result (λ image. ForSome (table_at self.old row) (λ t. length image ≡ t.size)) }
        ensures same { self.new ≡ self.old }
    {
        let Some(table) = self.row(row) else {
            unreachable!();
        };
        if bytes.len() == table.size as usize {
            return self.whole_image(alloc, row, bytes);
        }
        match self.base(row) {
            Some(base) => Image::patched(alloc, base, offset, bytes),
            None => over_zeros(alloc, table.size, offset, bytes),
        }
    }
}

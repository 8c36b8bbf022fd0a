//! Describing a table file in text.

ghost use Rattle.std.specs.Prelude.{◌≡◌, ◌+◌, ◌≤◌, ◌++◌, ◌&&◌, nat_lt, nat_le, length, OnOk, true};
ghost use Rattle.std.specs.List.{list_all};
ghost use Rattle.tbl_kinds.specs.Limits.{table_limit};
ghost use Rattle.tbl_maker.specs.Names.{is_full_name};
ghost use Rattle.tbl_maker.specs.Shapes.{is_form, shape_size};
ghost use Rattle.tbl_maker.specs.Descriptions.{head_of};
ghost use Rattle.tbl_maker.specs.Describing.{FindsContents, DescribesByShape};
ghost use Rattle.tbl_maker.specs.Parts.{PutsFields};

use crate::field::put_field;
use crate::form::Form;
use crate::names::is_full_name;
use crate::shape::{Shape, TABLE_LIMIT};
use crate::value::put_number;
use plain_text::append_text;
use std::alloc::Global;
use table_files::{IMAGE_PLACE, TableFile, read_table_file};
use tbl_kinds::{Admit, Bytes, Memory};
use thiserror::Error;

/// Why a file isn't described.
#[derive(Clone, Copy, Debug, PartialEq, Eq, Error)]
pub enum DescribeFault {
    /// The bytes are no table file of a full name with one to 16,384 image bytes that end within the largest table.
    #[error("the file is no table file that can be described")]
    File,
    /// The file has another number of image bytes than the shape.
    #[error("the shape has {need} bytes, and the file {have}")]
    Length {
        /// The shape's bytes.
        need: u32,
        /// The file's image bytes.
        have: u32,
    },
    /// Memory ran out.
    #[error("out of memory")]
    Memory,
}

impl From<Memory> for DescribeFault {
    ghost use Rattle.std.specs.Prelude.{◌≡◌};
    ghost use Rattle.tbl_maker.specs.declared.describing.DescribeFault.TheVariants.{Memory};

    ghost from_gives = { λ _ e. e ≡ Memory };

    fn from(_fault: Memory) -> DescribeFault {
        DescribeFault::Memory
    }
}

/// Whether the table has a full name, and the bytes are one or more that end within the largest table.
fn can_be_described(file: &TableFile) -> bool
    ensures { result ≡ (is_full_name file.now.name && nat_lt 0 file.now.count && nat_le (file.now.offset + file.now.count) table_limit) }
{
    let end = u64::from(file.offset) + u64::from(file.count);
    is_full_name(file.name.bytes()) && file.count > 0 && end <= u64::from(TABLE_LIMIT)
}

/// A table file that can be described, and its image bytes.
fn describable(bytes: &[u8]) -> Option<(TableFile, &[u8])>
    ensures { FindsContents (λ image. image.now) bytes.now result }
{
    let Ok(file) = read_table_file(bytes, &Admit::all()) else {
        return None;
    };
    if !can_be_described(&file) {
        return None;
    }
    let (_, image) = bytes.split_at(IMAGE_PLACE);
    Some((file, image))
}

/// How many bytes the fields of these forms have.
fn size_of(forms: &[Form]) -> u32
    requires { shape_size forms.now ≤ table_limit }
    ensures { result ≡ shape_size forms.now }
{
    let mut size = 0;
    for form in forms {
        size += form.kind.size() as u32;
    }
    size
}

/// Appends the lines of the table and the offset.
fn put_head(out: &mut Bytes, file: &TableFile) -> Result<(), Memory>
    ensures { OnOk result (out.new.list ≡ out.old.list ++ head_of file.now.name file.now.offset) }
{
    append_text(out, b"table ")?;
    append_text(out, file.name.bytes())?;
    append_text(out, b"\noffset ")?;
    put_number(out, i64::from(file.offset))?;
    append_text(out, b"\n")
}

/// Appends the lines of the fields of these forms that have these bytes.
fn put_fields(out: &mut Bytes, forms: &[Form], image: &[u8]) -> Result<(), Memory>
    requires forms { list_all is_form forms.now ≡ true }
    requires size { shape_size forms.now ≡ length image.now }
    ensures { OnOk result (PutsFields forms.now image.now out.old.list out.new.list) }
{
    let mut rest = image;
    for form in forms {
        let (piece, after) = rest.split_at(form.kind.size());
        put_field(out, form, piece)?;
        rest = after;
    }
    Ok(())
}

/// Describes a table file by a shape, in the text of which `make_file` makes the file again: `table NAME`, `offset N`, and
/// a line for each field of the shape. `File`: the bytes are no table file, its name is no full name, it has no image byte,
/// or they end past the largest table. `Length`: the shape has another number of bytes than the image. `Memory`: memory
/// ran out.
pub fn describe_file(alloc: Global, shape: &Shape, file: &[u8]) -> Result<Bytes, DescribeFault>
    // The text is that of the one description of this shape that tells what the file tells.
    ensures { DescribesByShape shape.now file.now result }
{
    let Some((contents, image)) = describable(file) else {
        return Err(DescribeFault::File);
    };
    let need = size_of(shape.forms());
    if need != contents.count {
        let have = contents.count;
        return Err(DescribeFault::Length { need, have });
    }
    let mut text = Bytes::make(alloc, 0)?;
    put_head(&mut text, &contents)?;
    put_fields(&mut text, shape.forms(), image)?;
    Ok(text)
}

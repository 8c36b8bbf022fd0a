//! Writing a table file.

ghost use Rattle.std.specs.Prelude.{◌≡◌, ◌+◌, ◌<◌, ◌≤◌, ◌^◌, ◌++◌, length};
ghost use Rattle.tbl_kinds.specs.Names.{name_field};
ghost use Rattle.tbl_kinds.specs.Numbers.{four};
ghost use Rattle.tbl_kinds.specs.Records.{FitsField};
ghost use Rattle.tbl_kinds.specs.Headers.{IsHeader};
ghost use Rattle.tbl_kinds.specs.TableFiles.{table_subtype, image_place};
ghost use Rattle.cfe_headers.specs.FileHeaders.{header_of};
ghost use Rattle.table_files.specs.Files.{with_image};
ghost use Rattle.table_files.specs.Readings.{AppendsFile};

use crate::reading::{IMAGE_PLACE, TableFile};
use cfe_headers::{FileHeader, HEADER_LENGTH, fill_file_header};
use tbl_kinds::{Bytes, Name40};

/// The numbers of a header fit their fields, and its description fills its own.
fn every_header_fits(header: &FileHeader)
    ensures { IsHeader (header_of header.now) }
{
    // a number that was read is known to fit its type
    let _subtype = header.subtype;
    let _length = header.length;
    let _spacecraft = header.spacecraft;
    let _processor = header.processor;
    let _application = header.application;
    let _seconds = header.seconds;
    let _sub = header.sub;
}

/// Fills in the table file header: four zeros, the offset and the number of image bytes in four bytes each, and the table's
/// name and zeros in 40.
#[inline]
fn fill_table_header(out: &mut [u8], offset: u32, count: u32, name: &Name40)
    requires { length out.old ≡ 52 }
    ensures bytes { out.new ≡ four 0 ++ four offset ++ four count ++ name_field 40 name.now }
    ensures fits { FitsField 40 name.now }
{
    let (reserved, rest) = out.split_at_mut(4);
    let (place, rest) = rest.split_at_mut(4);
    let (number, field) = rest.split_at_mut(4);
    reserved.copy_from_slice(&[0; 4]);
    place.copy_from_slice(&offset.to_be_bytes());
    number.copy_from_slice(&count.to_be_bytes());
    field.copy_from_slice(&name.field());
}

/// Appends a table file of these parts, as `write_table_file` does: no `TableFile` has to be made for it.
#[inline]
#[tactic(auto, unfolding(tbl_kinds::specs::TableFiles::file_with))]
pub fn write_image_file(
    out: &mut Bytes,
    header: &FileHeader,
    offset: u32,
    name: &Name40,
    image: &[u8],
)
    requires room { image_place + length image.now ≤ out.old.spare }
    requires subtype { header.now.subtype ≡ table_subtype }
    requires count { length image.now < 2 ^ 32 }
    ensures { AppendsFile (header_of header.now) (record { offset = offset; name = name.now; image = image.now }) out.old out.new }
{
    every_header_fits(header);
    let mut headers = [0; IMAGE_PLACE];
    let (file_header, table_header) = headers.split_at_mut(HEADER_LENGTH);
    fill_file_header(file_header, header);
    fill_table_header(table_header, offset, image.len() as u32, name);
    out.append(&headers);
    out.append(image);
}

/// Appends a table file, 116 bytes and the image: the file header, four zeros, the offset and the number of image bytes in
/// four bytes each, the table's name and zeros in 40, and the image bytes (cFE's `CFE_TBL_File_Hdr_t`,
/// cfe_tbl_extern_typedefs.h). It takes no memory, and can't fail: the room is there before. What was appended is read again
/// under all lists that admit the header's spacecraft and its processor.
pub fn write_table_file(out: &mut Bytes, header: &FileHeader, file: &TableFile, image: &[u8])
    requires room { image_place + length image.now ≤ out.old.spare }
    requires subtype { header.now.subtype ≡ table_subtype }
    requires count { file.now.count ≡ length image.now }
    ensures { AppendsFile (header_of header.now) (with_image file.now image.now) out.old out.new }
{
    let _count = file.count;
    write_image_file(out, header, file.offset, &file.name, image);
}

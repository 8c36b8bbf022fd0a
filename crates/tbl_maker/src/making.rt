//! Making a table file from its description in text.

ghost use Rattle.std.specs.Prelude.{◌≡◌, ◌≤◌, length, IfSome, IfNone, IfOk, IfErr};
ghost use Rattle.tbl_kinds.specs.Limits.{table_limit};
ghost use Rattle.tbl_maker.specs.Descriptions.{made_header};
ghost use Rattle.tbl_maker.specs.Making.{IsMadeOf, TellsLine, MakesOfText};
ghost use Rattle.tbl_maker.specs.Parts.{ReadsTable, IsNoTable, ReadsOffset, IsNoOffset, AddsOr, ReadsFields, StopsAt};
ghost use Rattle.tbl_kinds.specs.TableFiles.{table_file};
ghost use Rattle.cfe_headers.specs.FileHeaders.{header_of};

use crate::field::field_bytes;
use crate::names::is_full_name;
use crate::number::count_in;
use crate::shape::TABLE_LIMIT;
use crate::splitting::split_at_byte;
use cfe_headers::{FileHeader, HEADER_LENGTH};
use std::alloc::Global;
use table_files::{IMAGE_PLACE, TABLE_SUBTYPE, TableFile, write_table_file};
use tbl_kinds::{Bytes, Memory, Name, Name40};
use thiserror::Error;

/// Why no file is made of a text.
#[derive(Clone, Copy, Debug, PartialEq, Eq, Error)]
pub enum MakeFault {
    /// The text is no description.
    #[error("line {number} is not what a description has there")]
    Line {
        /// The first bad line, counted from 1. A line that is missing counts, and so do bytes that no newline ends.
        number: u32,
    },
    /// Memory ran out.
    #[error("out of memory")]
    Memory,
}

impl From<Memory> for MakeFault {
    ghost use Rattle.std.specs.Prelude.{◌≡◌};
    ghost use Rattle.tbl_maker.specs.declared.making.MakeFault.TheVariants.{Memory};

    ghost from_gives = { λ _ e. e ≡ Memory };

    fn from(_fault: Memory) -> MakeFault {
        MakeFault::Memory
    }
}

/// The spacecraft and the processor of the files that the service writes.
const SPACECRAFT: u32 = 66;

const PROCESSOR: u32 = 1;

/// The line of the first field.
const FIRST_FIELD: u32 = 3;

/// The table that the first line names, and what follows the line.
fn table_line(text: &[u8]) -> Option<(Name40, &[u8])>
    ensures some { IfSome result (λ found. ReadsTable text.now found.0 found.1.now) }
    ensures none { IfNone result (IsNoTable text.now) }
{
    let (line, rest) = split_at_byte(text, b'\n')?;
    let name = line.strip_prefix(b"table ")?;
    if !is_full_name(name) {
        return None;
    }
    Some((Name::of(name), rest))
}

/// The offset that the second line tells, where a byte fits after it, and what follows the line.
fn offset_line(text: &[u8]) -> Option<(u32, &[u8])>
    ensures some { IfSome result (λ found. ReadsOffset text.now found.1.now found.0) }
    ensures none { IfNone result (IsNoOffset text.now) }
{
    let (line, rest) = split_at_byte(text, b'\n')?;
    let digits = line.strip_prefix(b"offset ")?;
    let offset = count_in(digits, TABLE_LIMIT)?;
    Some((offset, rest))
}

/// Appends the value of the field of the next line, and gives what follows the line. None where the next line is no
/// field's, or the image would become longer than the room.
fn add_field<'a>(image: &mut Bytes, text: &'a [u8], room: u32) -> Result<Option<&'a [u8]>, Memory>
    ensures { AddsOr (λ rest. rest.now) text.now image.old.list image.new.list room result }
{
    let Some((line, rest)) = split_at_byte(text, b'\n') else {
        return Ok(None);
    };
    let Some(bytes) = field_bytes(line) else {
        return Ok(None);
    };
    let left = (room as usize).saturating_sub(image.bytes().len());
    if left < bytes.len() {
        return Ok(None);
    }
    image.reserve(bytes.len())?;
    image.append(&bytes);
    Ok(Some(rest))
}

/// The image of the fields whose lines the text is.
fn fields_image(alloc: Global, text: &[u8], room: u32) -> Result<Bytes, MakeFault>
    requires { room ≤ table_limit }
    ensures ok { IfOk result (λ image. ReadsFields text.now image.list room) }
    ensures line { IfErr result (λ fault. StopsAt text.now room fault) }
{
    let mut image = Bytes::make(alloc, 0)?;
    let mut rest = text;
    let mut number = FIRST_FIELD;
    while !rest.is_empty() {
        let Some(after) = add_field(&mut image, rest, room)? else {
            return Err(MakeFault::Line { number });
        };
        rest = after;
        number += 1;
    }
    if number == FIRST_FIELD {
        return Err(MakeFault::Line { number });
    }
    Ok(image)
}

/// The header of a file that is made: the service's, at the time 0.
fn made_header() -> FileHeader
    ensures { header_of result ≡ made_header }
{
    FileHeader {
        subtype: TABLE_SUBTYPE,
        length: HEADER_LENGTH as u32,
        spacecraft: SPACECRAFT,
        processor: PROCESSOR,
        application: 0,
        seconds: 0,
        sub: 0,
        description: Name::<32>::of(b"Table image").field(),
    }
}

/// The table file of these image bytes.
fn file_with(alloc: Global, name: Name40, offset: u32, image: &[u8]) -> Result<Bytes, Memory>
    requires { length image.now ≤ table_limit }
    ensures { IfOk result (λ file. file.list ≡ table_file made_header (record { offset = offset; name = name; image = image.now })) }
{
    let mut file = Bytes::make(alloc, IMAGE_PLACE + image.len())?;
    let count = image.len() as u32;
    write_table_file(
        &mut file,
        &made_header(),
        &TableFile {
            offset,
            count,
            name,
        },
        image,
    );
    Ok(file)
}

/// The table file of the description whose text this is.
fn described_file(alloc: Global, text: &[u8]) -> Result<Bytes, MakeFault>
    ensures made { IfOk result (λ file. IsMadeOf text.now file.list) }
    ensures line { IfErr result (λ fault. TellsLine text.now fault) }
{
    let Some((name, rest)) = table_line(text) else {
        return Err(MakeFault::Line { number: 1 });
    };
    let Some((offset, rest)) = offset_line(rest) else {
        return Err(MakeFault::Line { number: 2 });
    };
    let image = match fields_image(alloc, rest, TABLE_LIMIT - offset) {
        Ok(image) => image,
        Err(fault) => return Err(fault),
    };
    let file = file_with(alloc, name, offset, image.bytes())?;
    Ok(file)
}

/// Makes the table file of a description: lines, each ended by a newline, that are `table NAME` with a full name,
/// `offset N`, and one or more fields `TYPE NAME VALUE`, with single spaces. TYPE is u8, u16, u32, i8, i16, i32 or hex.
/// Numbers are decimal; the value of hex is 1 to 64 bytes as pairs of 0 to 9 and A to F. The file has the headers that the
/// service writes (cFE's `CFE_FS_Header_t` and `CFE_TBL_File_Hdr_t`), at the time 0, and the fields as its image:
/// big-endian, in two's complement where negative, without gaps. `Line`: the text is no description. `Memory`: memory ran
/// out.
pub fn make_file(alloc: Global, text: &[u8]) -> Result<Bytes, MakeFault>
    // What is made is the file of the description whose text this is. Each description's file is made of its text, unless memory runs out.
    // The line is told exactly of a text that is no description's.
    ensures { MakesOfText text.now result }
{
    described_file(alloc, text)
}

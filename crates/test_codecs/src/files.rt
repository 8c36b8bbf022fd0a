//! File headers and table files.

use crate::line::{Line, room_for};
use cfe_headers::{FileHeader, read_file_header, write_file_header};
use std::alloc::Global;
use table_files::{IMAGE_PLACE, TableFile, read_table_file, write_table_file};
use tbl_kinds::{Admit, Name, Name40};
use test_tables::{CaseFault, Pieces, admit_of, count_of, number_in, numbers_in, same_bytes};

/// How many bytes the file header has.
const HEADER_LENGTH: usize = 64;

/// The subtype of a table file.
const TABLE_SUBTYPE: u32 = 8;

/// How many bytes the field of a table's name has.
const TABLE_NAME: usize = 40;

/// The fields of a header, without its description.
fn tell_fields(line: &mut Line, header: &FileHeader) {
    line.numbered("subtype", &[header.subtype]);
    line.numbered("length", &[header.length]);
    line.numbered(
        "from",
        &[header.spacecraft, header.processor, header.application],
    );
    line.numbered("at", &[header.seconds, header.sub]);
}

/// A file header is written again.
fn rewrite_header(alloc: Global, header: &FileHeader, bytes: &[u8]) -> Result<(), CaseFault> {
    let Some(front) = bytes.get(..HEADER_LENGTH) else {
        return Err(CaseFault::Unreadable);
    };
    let mut out = room_for(alloc, HEADER_LENGTH)?;
    write_file_header(&mut out, header);
    same_bytes(alloc, out.bytes(), front)
}

/// A file header is read, and one that is right is written again.
pub(crate) fn tell_header(alloc: Global, line: &mut Line, bytes: &[u8]) -> Result<(), CaseFault> {
    match read_file_header(bytes) {
        Ok(header) => {
            tell_fields(line, &header);
            rewrite_header(alloc, &header, bytes)
        }
        Err(fault) => Ok(line.shown(&fault)),
    }
}

/// A table file is read under these lists. A fault is told with the status of a LOAD from such a file, and with its detail where
/// there is one.
fn tell_file_under(line: &mut Line, bytes: &[u8], admit: &Admit) {
    match read_table_file(bytes, admit) {
        Ok(file) => {
            line.numbered("offset", &[file.offset]);
            line.numbered("count", &[file.count]);
            line.name(file.name.bytes());
        }
        Err(fault) => {
            line.shown(&fault);
            let answer = fault.answer();
            line.number(answer.status.0);
            if answer.detail != 0 {
                line.number(answer.detail);
            }
        }
    }
}

/// A table file is read where all spacecraft and processors are admitted.
pub(crate) fn tell_file(line: &mut Line, bytes: &[u8]) {
    tell_file_under(line, bytes, &Admit::all());
}

/// A table file is read where the spacecraft and the processors of two cells are admitted.
pub(crate) fn tell_admitted(
    alloc: Global,
    line: &mut Line,
    lists: [&str; 2],
    bytes: &[u8],
) -> Result<(), CaseFault> {
    let [spacecraft, processor] = lists;
    let spacecraft = numbers_in(alloc, spacecraft)?;
    let processor = numbers_in(alloc, processor)?;
    tell_file_under(line, bytes, &admit_of(&spacecraft, &processor)?);
    Ok(())
}

/// The header that the bytes of a cell begin with.
fn header_in(pieces: &Pieces, cell: &str) -> Result<FileHeader, CaseFault> {
    let bytes = pieces.bytes(cell)?;
    match read_file_header(&bytes) {
        Ok(header) => Ok(header),
        Err(_) => Err(CaseFault::Unreadable),
    }
}

/// The table's name that the bytes of a cell are.
fn name_in(pieces: &Pieces, cell: &str) -> Result<Name40, CaseFault> {
    let bytes = pieces.bytes(cell)?;
    if bytes.len() > TABLE_NAME {
        return Err(CaseFault::Unreadable);
    }
    Ok(Name::of(&bytes))
}

/// A table file is written, after this header.
fn try_written(
    alloc: Global,
    header: &FileHeader,
    offset: u32,
    name: Name40,
    image: &[u8],
    wanted: &[u8],
) -> Result<(), CaseFault> {
    let count = count_of(image)?;
    if header.subtype != TABLE_SUBTYPE {
        return Err(CaseFault::Unreadable);
    }
    let file = TableFile {
        offset,
        count,
        name,
    };
    let mut out = room_for(alloc, IMAGE_PLACE + image.len())?;
    write_table_file(&mut out, header, &file, image);
    same_bytes(alloc, out.bytes(), wanted)
}

/// A table file is written, after the header that the first cell begins with: header, offset, name and image.
pub(crate) fn try_written_cells(
    alloc: Global,
    pieces: &Pieces,
    cells: [&str; 4],
    wanted: &str,
) -> Result<(), CaseFault> {
    let [header, offset, name, image] = cells;
    let header = header_in(pieces, header)?;
    let offset = number_in(offset)?;
    let name = name_in(pieces, name)?;
    let image = pieces.bytes(image)?;
    let wanted = pieces.bytes(wanted)?;
    try_written(alloc, &header, offset, name, &image, &wanted)
}

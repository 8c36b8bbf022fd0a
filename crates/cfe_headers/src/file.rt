//! The header that cFE puts in front of its files.

ghost use Rattle.std.specs.Prelude.{◌≡◌, ◌≤◌, ◌++◌, length};
ghost use Rattle.tbl_kinds.specs.Numbers.{four};
ghost use Rattle.tbl_kinds.specs.Headers.{file_header, header_len};
ghost use Rattle.cfe_headers.specs.Appends.{Appends};
ghost use Rattle.cfe_headers.specs.FileHeaders.{header_of};
ghost use Rattle.cfe_headers.specs.Readings.{GivesHeader};

use byteorder::{BigEndian, ByteOrder};
use tbl_kinds::Bytes;
use thiserror::Error;

/// The content type of cFE's files, the letters `cFE1` (cFE's `CFE_FS_FILE_CONTENT_ID`).
const CONTENT_TYPE: u32 = 0x6346_4531;

/// How many bytes the header has.
pub const HEADER_LENGTH: usize = 64;

/// The file header of cFE (`CFE_FS_Header_t`), without its content type, which is always the same.
#[derive(Clone, Copy, PartialEq, Eq)]
pub struct FileHeader {
    /// What kind of file it is: 8 for a table file.
    pub subtype: u32,
    /// The number of bytes of the header, 64. Readers don't look at it.
    pub length: u32,
    /// The spacecraft that the file was written on or is for.
    pub spacecraft: u32,
    /// The processor that the file was written on or is for.
    pub processor: u32,
    /// The application that wrote the file.
    pub application: u32,
    /// When the file was written, in seconds of the service's time.
    pub seconds: u32,
    /// Its subseconds, in units of 1/2^32 of a second.
    pub sub: u32,
    /// A text, followed by zeros.
    pub description: [u8; 32],
}

/// What is wrong with a file's header, in the order tested.
#[derive(Clone, Copy, Debug, PartialEq, Eq, Error)]
pub enum HeaderFault {
    /// There are fewer than 64 bytes.
    #[error("a file header has 64 bytes")]
    Short,
    /// The content type is not that of cFE's files.
    #[error("the content type is not that of a cFE file")]
    BadContent,
}

/// Reads the header at the front of a file. Of its fields the content type alone is tested.
pub fn read_file_header(bytes: &[u8]) -> Result<FileHeader, HeaderFault>
    ensures { GivesHeader bytes.now result }
{
    if bytes.len() < HEADER_LENGTH {
        return Err(HeaderFault::Short);
    }
    if BigEndian::read_u32(bytes) != CONTENT_TYPE {
        return Err(HeaderFault::BadContent);
    }
    let mut description = [0; 32];
    description.copy_from_slice(&bytes[32..HEADER_LENGTH]);
    Ok(FileHeader {
        subtype: BigEndian::read_u32(&bytes[4..]),
        length: BigEndian::read_u32(&bytes[8..]),
        spacecraft: BigEndian::read_u32(&bytes[12..]),
        processor: BigEndian::read_u32(&bytes[16..]),
        application: BigEndian::read_u32(&bytes[20..]),
        seconds: BigEndian::read_u32(&bytes[24..]),
        sub: BigEndian::read_u32(&bytes[28..]),
        description,
    })
}

/// Fills sixteen bytes with four numbers.
#[inline]
fn fill_numbers(out: &mut [u8], first: u32, second: u32, third: u32, fourth: u32)
    requires { length out.old ≡ 16 }
    ensures { out.new ≡ four first ++ four second ++ four third ++ four fourth }
{
    let (one, rest) = out.split_at_mut(4);
    let (two, rest) = rest.split_at_mut(4);
    let (three, last) = rest.split_at_mut(4);
    one.copy_from_slice(&first.to_be_bytes());
    two.copy_from_slice(&second.to_be_bytes());
    three.copy_from_slice(&third.to_be_bytes());
    last.copy_from_slice(&fourth.to_be_bytes());
}

/// Fills in a file header, 64 bytes. So it can be one piece with what stands after it.
#[inline(always)]
#[tactic(auto, unfolding(tbl_kinds::specs::Headers::file_header))]
pub fn fill_file_header(out: &mut [u8], header: &FileHeader)
    requires { length out.old ≡ header_len }
    ensures { out.new ≡ file_header (header_of header.now) }
{
    let (kind, rest) = out.split_at_mut(16);
    let (source, description) = rest.split_at_mut(16);
    fill_numbers(
        kind,
        CONTENT_TYPE,
        header.subtype,
        header.length,
        header.spacecraft,
    );
    fill_numbers(
        source,
        header.processor,
        header.application,
        header.seconds,
        header.sub,
    );
    description.copy_from_slice(&header.description);
}

/// Appends a file header, 64 bytes.
pub fn write_file_header(out: &mut Bytes, header: &FileHeader)
    requires { header_len ≤ out.old.spare }
    ensures { Appends (file_header (header_of header.now)) header_len out.old out.new }
{
    let mut bytes = [0; HEADER_LENGTH];
    fill_file_header(&mut bytes, header);
    out.append(&bytes);
}

//! Reading a table file.

ghost use Rattle.std.specs.Prelude.{◌≡◌};
ghost use Rattle.tbl_kinds.specs.TableFiles.{file_status, file_detail};
ghost use Rattle.table_files.specs.Files.{flaw_of};
ghost use Rattle.table_files.specs.Readings.{GivesFile};

use cfe_headers::{HeaderFault, read_file_header};
use tbl_kinds::{Admit, Answer, Name, Name40, Status, u32_at};
use thiserror::Error;

/// The subtype of a table file (cFE's `CFE_FS_SubType_TBL_IMG`).
pub const TABLE_SUBTYPE: u32 = 8;

/// Where the image bytes begin: after the file header and the table file header.
pub const IMAGE_PLACE: usize = 116;

/// What a table file tells beside its image bytes, which stand from place 116. After the file header of 64 bytes stands
/// the table file header of 52 (cFE's `CFE_TBL_File_Hdr_t`, cfe_tbl_extern_typedefs.h): four reserved bytes, the offset
/// and the number of image bytes in four bytes each, the high byte first, and the table's full name in 40.
#[derive(PartialEq, Eq, Drop)]
pub struct TableFile {
    /// Where in the table's image the file's bytes belong, in bytes from its front.
    pub offset: u32,
    /// The number of image bytes.
    pub count: u32,
    /// The full name of the table. Whether it is a good name isn't looked at here.
    pub name: Name40,
}

/// What is wrong with a table file, in the order tested.
#[derive(Clone, Copy, Debug, PartialEq, Eq, Error)]
pub enum FileFault {
    /// There are fewer than 64 bytes.
    #[error("the file has no cFE file header")]
    NoStdHeader,
    /// The content type is not that of cFE's files.
    #[error("the content type is not that of a cFE file")]
    BadContent,
    /// The subtype is not 8.
    #[error("the subtype is not that of a table file")]
    BadSubtype,
    /// The spacecraft of this identifier isn't admitted.
    #[error("files of this spacecraft are not admitted")]
    BadSpacecraft(u32),
    /// The processor of this identifier isn't admitted.
    #[error("files of this processor are not admitted")]
    BadProcessor(u32),
    /// There are fewer than 116 bytes.
    #[error("the file has no table file header")]
    NoTableHeader,
    /// There are fewer image bytes than the file states.
    #[error("the file has fewer image bytes than it states")]
    Incomplete,
    /// There are more image bytes than the file states.
    #[error("the file has more image bytes than it states")]
    TooBig,
}

impl FileFault {
    /// How a load from such a file is refused: the status, and an identifier that isn't admitted as the detail.
    pub fn answer(self) -> Answer
        ensures { result ≡ record { status = file_status (flaw_of self); detail = file_detail (flaw_of self) } }
    {
        let (status, detail) = match self {
            FileFault::NoStdHeader => (Status::ERR_NO_STD_HEADER, 0),
            FileFault::BadContent => (Status::ERR_BAD_CONTENT_ID, 0),
            FileFault::BadSubtype => (Status::ERR_BAD_SUBTYPE_ID, 0),
            FileFault::BadSpacecraft(id) => (Status::ERR_BAD_SPACECRAFT_ID, id),
            FileFault::BadProcessor(id) => (Status::ERR_BAD_PROCESSOR_ID, id),
            FileFault::NoTableHeader => (Status::ERR_NO_TBL_HEADER, 0),
            FileFault::Incomplete => (Status::ERR_LOAD_INCOMPLETE, 0),
            FileFault::TooBig => (Status::ERR_FILE_TOO_LARGE, 0),
        };
        Answer { status, detail }
    }
}

/// Reads a table file, all of the bytes: the file header (cFE's `CFE_FS_Header_t`, cfe_fs_extern_typedefs.h), the table
/// file header and the image bytes. Where it is none, the first fault in the order of `FileFault` is answered. Of the file
/// header the content type, the subtype, the spacecraft and the processor alone are tested, the last two by the lists of
/// those that are admitted; the rest of it, the reserved bytes and what stands in the name field after the name's zero are
/// not looked at.
pub fn read_table_file(bytes: &[u8], admit: &Admit) -> Result<TableFile, FileFault>
    ensures { GivesFile admit.now bytes.now result }
{
    let header = match read_file_header(bytes) {
        Ok(header) => header,
        Err(HeaderFault::Short) => return Err(FileFault::NoStdHeader),
        Err(HeaderFault::BadContent) => return Err(FileFault::BadContent),
    };
    if header.subtype != TABLE_SUBTYPE {
        return Err(FileFault::BadSubtype);
    }
    if !admit.admits_spacecraft(header.spacecraft) {
        return Err(FileFault::BadSpacecraft(header.spacecraft));
    }
    if !admit.admits_processor(header.processor) {
        return Err(FileFault::BadProcessor(header.processor));
    }
    if bytes.len() < IMAGE_PLACE {
        return Err(FileFault::NoTableHeader);
    }
    let count = u32_at(bytes, 72);
    let stated = IMAGE_PLACE + count as usize;
    if bytes.len() < stated {
        return Err(FileFault::Incomplete);
    }
    if bytes.len() > stated {
        return Err(FileFault::TooBig);
    }
    Ok(TableFile {
        offset: u32_at(bytes, 68),
        count,
        name: Name::of(&bytes[76..IMAGE_PLACE]),
    })
}

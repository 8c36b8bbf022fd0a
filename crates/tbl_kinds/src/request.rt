ghost use Rattle.std.specs.Prelude.{◌≡◌, ◌↔◌, IsTrue};
ghost use Rattle.tbl_kinds.specs.Records.{actor_number};
ghost use Rattle.tbl_kinds.specs.Requests.{Fits};

use crate::bytes::Bytes;
use crate::name::{Name16, Name20, Name40};
use crate::uplink::{FileName, Uplink};

/// Who makes a request.
#[derive(Clone, Copy, PartialEq, Eq)]
pub enum Actor {
    /// The ground system.
    Ground,
    /// An application, by its number from 1 to 16.
    App(u8),
}

impl Actor {
    /// 0 for the ground, or the number of the application: the actor's byte in records and entries.
    pub fn number(self) -> u8
        ensures { result ≡ actor_number self }
    {
        match self {
            Actor::Ground => 0,
            Actor::App(number) => number,
        }
    }
}

/// How the processor was reset (cFE User's Guide, Executive Services, "Reset Types and Subtypes").
#[derive(Clone, Copy, Debug, PartialEq, Eq)]
pub enum ResetKind {
    /// The Critical Data Store, the uplinked files and the running applications stay.
    Processor,
    /// Nothing but the time stays.
    PowerOn,
}

/// One request of one actor. The first four come from the ground, the others from an application.
#[derive(Drop)]
pub enum Request {
    /// A telecommand, as the bytes of its packet.
    Command {
        bytes: Bytes,
    },
    /// An uplinked file.
    File {
        file: Uplink,
    },
    /// Sets the spacecraft's time.
    Time {
        seconds: u32,
        sub: u16,
    },
    /// Resets the processor.
    Reset {
        kind: ResetKind,
    },
    /// The application begins to run under this name.
    Start {
        name: Name20,
    },
    /// `CFE_TBL_Register`. The validator is a number of the kit, which stands for the validation function.
    Register {
        name: Name16,
        size: u32,
        flags: u16,
        validator: Option<u8>,
    },
    /// `CFE_TBL_Share`.
    Share {
        name: Name40,
    },
    /// `CFE_TBL_Unregister`.
    Unregister {
        handle: u16,
    },
    /// `CFE_TBL_Load` with `CFE_TBL_SRC_ADDRESS`.
    LoadImage {
        handle: u16,
        image: Bytes,
    },
    /// `CFE_TBL_Load` with `CFE_TBL_SRC_FILE`.
    LoadFile {
        handle: u16,
        name: FileName,
    },
    /// `CFE_TBL_Update`.
    Update {
        handle: u16,
    },
    /// `CFE_TBL_Validate`.
    Validate {
        handle: u16,
    },
    /// `CFE_TBL_Manage`.
    Manage {
        handle: u16,
    },
    /// `CFE_TBL_DumpToBuffer`.
    DumpToBuffer {
        handle: u16,
    },
    /// Writes into a dump-only table, as its owner does through its address in cFE.
    Edit {
        handle: u16,
        offset: u32,
        bytes: Bytes,
    },
    /// `CFE_TBL_GetAddress`.
    Get {
        handle: u16,
    },
    /// Reads through the address.
    Read {
        handle: u16,
        offset: u32,
        len: u32,
    },
    /// `CFE_TBL_ReleaseAddress`.
    Release {
        handle: u16,
    },
    /// `CFE_TBL_GetStatus`.
    GetStatus {
        handle: u16,
    },
    /// `CFE_TBL_GetInfo`.
    GetInfo {
        name: Name40,
    },
    /// `CFE_TBL_NotifyByMessage`.
    Notify {
        handle: u16,
        msg: u16,
        code: u16,
        parameter: u32,
    },
    /// The application ends.
    Exit,
    /// `CFE_ES_RegisterCDS`.
    CdsRegister {
        name: Name16,
        size: u32,
    },
    /// `CFE_ES_CopyToCDS`.
    CdsCopy {
        slot: u16,
        image: Bytes,
    },
    /// `CFE_ES_RestoreFromCDS`.
    CdsRestore {
        slot: u16,
    },
    /// `CFE_ES_DeleteCDS`, for a block of the application's own.
    CdsDelete {
        slot: u16,
    },
}

/// Whether the request may come from this actor: the first four from the ground and the others from an
/// application from 1 to 16, and no validator has the number 255.
pub fn fits(actor: Actor, request: &Request) -> bool
    ensures { IsTrue result ↔ Fits actor request.now }
{
    let from_ground = matches!(
        request,
        Request::Command { .. }
            | Request::File { .. }
            | Request::Time { .. }
            | Request::Reset { .. }
    );
    let has_validator = !matches!(
        request,
        Request::Register {
            validator: Some(255),
            ..
        }
    );
    match actor {
        Actor::Ground => from_ground,
        Actor::App(number) => !from_ground && 1 <= number && number <= 16 && has_validator,
    }
}

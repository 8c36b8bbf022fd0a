//! Commands and their faults.

ghost use Rattle.std.specs.Prelude.{◌≡◌, false};
ghost use Rattle.tbl_kinds.specs.Statuses.{is_success};
ghost use Rattle.tbl_kinds.specs.GroundCommands.{flaw_detail};
ghost use Rattle.cfe_headers.specs.Faults.{flaw_of};
ghost use Rattle.cmd_packets.specs.Views.{answer_of};

use cfe_headers::PacketFault;
use tbl_kinds::{Answer, Name40, Name64, Status};
use thiserror::Error;

/// What the ground asks (as the commands of cFE's table services do; the message ids, function codes and layouts are this
/// service's own). A payload begins at place 8 of the packet, and its fields stand in the order named: a selector of 2
/// bytes, the high byte first, a table's full name in 40 bytes, and a file's name in 64.
#[derive(PartialEq, Eq, Drop)]
pub enum Ground {
    /// Send a housekeeping packet. It has a message id of its own, 0x180C, any code, and no payload.
    Housekeeping,
    /// Do nothing but count. Code 0, no payload.
    Noop,
    /// Clear the counters. Code 1, no payload.
    ResetCounters,
    /// Load a table from the file of this name. Code 2, 64 bytes: the file.
    Load {
        file: Name64,
    },
    /// Write an image of a table to a file. Code 3, 106 bytes: selector, table and file.
    Dump {
        /// 0 for the inactive and 1 for the active image. Other numbers are read too.
        select: u16,
        table: Name40,
        file: Name64,
    },
    /// Validate an image of a table. Code 4, 42 bytes: selector and table.
    Validate {
        /// As in a dump.
        select: u16,
        table: Name40,
    },
    /// Let the load of a table become its active image. Code 5, 40 bytes: the table.
    Activate {
        table: Name40,
    },
    /// Write the registry to a file. Code 6, 64 bytes: the file.
    DumpRegistry {
        file: Name64,
    },
    /// Send the registry record of a table. Code 7, 40 bytes: the table.
    SendRegistry {
        table: Name40,
    },
    /// Delete the Critical Data Store's block of a table. Code 8, 40 bytes: the table.
    DeleteCds {
        table: Name40,
    },
    /// Give up the load of a table. Code 9, 40 bytes: the table.
    Abort {
        table: Name40,
    },
}

/// Why a packet is no command, in the order tested.
#[derive(Clone, Copy, Debug, PartialEq, Eq, Error)]
pub enum CmdFault {
    /// It is no whole command packet.
    #[error("the packet is not whole: {0}")]
    BadPacket(PacketFault),
    /// It has this message id, which is neither that of commands, 0x1804, nor that of a housekeeping request, 0x180C.
    #[error("message id {0} is not one of this service")]
    BadMessageId(u16),
    /// There is no command of this function code, which is above 9.
    #[error("there is no command {0}")]
    BadCode(u8),
    /// The payload has so many bytes, and the command wants another number of them.
    #[error("a payload of {0} bytes is not that of the command")]
    BadLength(u32),
    /// A field reads as no name: 1 the table's, or else 2 the file's. A name has one byte or more, each from 0x21 to 0x7E.
    #[error("name {0} is not a name")]
    BadName(u8),
}

/// The detail that tells what is wrong with a packet.
fn detail_of(fault: PacketFault) -> u32
    ensures { result ≡ flaw_detail (flaw_of fault) }
{
    match fault {
        PacketFault::Short => 1,
        PacketFault::BadLength => 2,
        PacketFault::BadCheck => 3,
    }
}

impl CmdFault {
    /// The status and the detail that refuse such a packet: 80 with 1, 2 or 3 for the packet's first flaw (fewer than 8
    /// bytes, the length field, the checksum), 81 with the message id, 82 with the code, 83 with the payload's length,
    /// 84 with the name's number.
    pub fn answer(self) -> Answer
        ensures answer { result ≡ answer_of self }
        ensures refuses { is_success result.status ≡ false }
    {
        let (status, detail) = match self {
            CmdFault::BadPacket(fault) => (Status::ERR_BAD_PACKET, detail_of(fault)),
            CmdFault::BadMessageId(id) => (Status::ERR_BAD_MESSAGE_ID, u32::from(id)),
            CmdFault::BadCode(code) => (Status::ERR_BAD_CODE, u32::from(code)),
            CmdFault::BadLength(len) => (Status::ERR_BAD_LENGTH, len),
            CmdFault::BadName(which) => (Status::ERR_BAD_NAME, u32::from(which)),
        };
        Answer { status, detail }
    }
}

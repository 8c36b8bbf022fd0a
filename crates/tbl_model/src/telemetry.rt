//! What telemetry tells of a request, as a value that the definitions and the code share.

use tbl_kinds::{Name40, Name64};

/// A table, by its row in the registry and its full name.
#[derive(Drop)]
pub struct Named {
    pub row: u8,
    pub name: Name40,
}

/// The command packet that tells a table's owner of pending work (`CFE_TBL_NotifyByMessage`).
#[derive(Clone, Copy, PartialEq, Eq)]
pub struct Notice {
    /// The packet's message id.
    pub msg: u16,
    /// Its function code, below 128.
    pub code: u8,
    /// Its payload, four bytes.
    pub parameter: u32,
}

/// What telemetry tells of one thing that a request did: the event that is sent for it, and the counts of housekeeping that
/// it changes. Code and definitions share it, so that the packets of a reply follow from what was done and from nothing else.
/// Rows are those of the registry.
#[derive(Drop)]
pub enum TelemetryEvent {
    /// A pending validation came to its end, of the last image (`active`) or of the open load's: the check word of the
    /// image, and the verdict, 0 for a good one.
    Finished {
        row: u8,
        active: bool,
        check: u16,
        verdict: i32,
        name: Name40,
    },
    /// A load asked for a verdict on its image.
    Judged {
        row: u8,
        verdict: i32,
    },
    /// An image went active: how many images the table has had with it.
    Activated {
        row: u8,
        count: u32,
        name: Name40,
    },
    /// A copy to the Critical Data Store failed, into this slot of its directory.
    CopyFailed {
        row: u8,
        slot: u8,
    },
    /// A dump file was written, with so many bytes: of a table, or of the registry where there is no row.
    Dumped {
        row: Option<u8>,
        file: Name64,
        len: u32,
    },
    /// A dump file wasn't written, since the drawer was full.
    NotDumped {
        row: u8,
    },
}

/// The packet that follows the events of a request.
#[derive(Clone, Copy, PartialEq, Eq)]
pub enum Shown {
    Nothing,
    /// Housekeeping.
    Housekeeping,
    /// The registry packet of the table in this row.
    Registry { row: u8 },
}

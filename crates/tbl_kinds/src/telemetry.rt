use crate::name::{Name20, Name40, Name64};
use crate::status::Status;

/// What a telemetry packet's headers carry beside its message id.
#[derive(Clone, Copy, PartialEq, Eq)]
pub struct TlmHead {
    /// The sequence count, below 16,384.
    pub count: u16,
    pub seconds: u32,
    /// Subseconds, in units of 1/65,536 of a second.
    pub sub: u16,
}

/// The body of an event packet.
#[derive(Clone, Copy, PartialEq, Eq)]
pub struct Event {
    pub number: u16,
    pub status: Status,
    /// The table's row in the registry, 0xFFFF for none.
    pub row: u16,
    pub detail: u32,
}

/// The body of a housekeeping packet (cFE's `CFE_TBL_HousekeepingTlm_Payload`), in the order of its fields.
#[derive(PartialEq, Eq, Drop)]
pub struct Housekeeping {
    /// Commands accepted.
    pub accepted: u8,
    /// Commands refused.
    pub refused: u8,
    /// Tables registered.
    pub tables: u16,
    /// Open loads.
    pub loads: u16,
    /// Validations finished.
    pub finished: u16,
    /// Check word of the last validated image.
    pub check: u32,
    /// The last validation's verdict.
    pub verdict: i32,
    /// The last validation's image: 0 inactive, 1 active.
    pub active: u8,
    /// Validations with verdict 0.
    pub good: u8,
    /// Validations with another verdict.
    pub bad: u8,
    /// Validation commands accepted.
    pub requests: u8,
    /// Shared working buffers that are free.
    pub free: u8,
    /// Time of the last update.
    pub seconds: u32,
    pub sub: u16,
    /// Table of the last validation.
    pub validated: Name40,
    /// Table of the last update.
    pub updated: Name40,
    /// Last file loaded.
    pub loaded_file: Name64,
    /// Last file dumped.
    pub dumped_file: Name64,
    /// Table of the last load.
    pub loaded: Name40,
}

/// A table's record in the registry (cFE's `CFE_TBL_TblRegPacket_Payload`), in the order of its fields.
#[derive(PartialEq, Eq, Drop)]
pub struct RegistryRow {
    pub size: u32,
    /// Check word of the last image, 0 where there is none.
    pub check: u32,
    /// How many images the table has had.
    pub count: u32,
    /// Time of this table's last update.
    pub seconds: u32,
    pub sub: u16,
    /// Bit 0 loaded, 1 activation requested, 2 dump only, 3 double buffered, 4 critical, 5 load open.
    pub bits: u8,
    /// The validator's number, 0xFF for none.
    pub validator: u8,
    pub name: Name40,
    pub owner: Name20,
    /// File of the last load from a file.
    pub file: Name64,
}

//! What requests work on, besides the history.

ghost use Rattle.std.specs.Prelude.{[], replicate, IfOk};
ghost use Rattle.tbl_model.specs.State.{no_tables};
ghost use Rattle.tbl_core.specs.Starting.{Holds};

use cds_store::Store;
use desk::Desk;
use file_drawer::Drawer;
use reply_packets::Counters;
use request_effects::Report;
use std::alloc::Global;
use store_requests::CopyRoom;
use tbl_kinds::Memory;
use tbl_outside::{Bank, Validator};
use tbl_registry::Tables;

/// How many handles there can be (`CFE_PLATFORM_TBL_MAX_NUM_HANDLES`).
const HANDLES: usize = 256;

/// The parts of the service. A request may change several of them in one go.
#[derive(Drop)]
pub(crate) struct Parts<B: Bank, C: Validator> {
    /// What requests about tables work on.
    pub desk: Desk<C>,
    pub store: Store<B>,
    /// Whether a boot failed or was stopped.
    pub ended: bool,
    /// Memory that a copy into the store may need.
    pub copies: CopyRoom,
}

/// What telemetry counts, and what it reports of the request that is played.
#[derive(Drop)]
pub(crate) struct Telemetry {
    pub counters: Counters,
    pub report: Report,
}

/// What an engine takes from memory besides the store.
#[derive(Drop)]
pub(crate) struct Room {
    pub tables: Tables,
    pub drawer: Drawer,
    pub report: Report,
    /// For each handle the place of the latest request that got an address by it.
    pub gets: Vec<u64>,
}

impl Room {
    /// No table and no file, and a place for each handle, of no call yet.
    pub(crate) fn make(alloc: Global) -> Result<Room, Memory>
        ensures { IfOk result (Holds no_tables [] (replicate 256 0)) }
    {
        Ok(Room {
            tables: Tables::make(alloc)?,
            drawer: Drawer::make(alloc)?,
            report: Report::make(alloc)?,
            gets: vec![in alloc; 0; HANDLES]?,
        })
    }
}

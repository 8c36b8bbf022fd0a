//! A copy of the engine.

ghost use Rattle.std.specs.Prelude.{◌≡◌, ◌≤◌, ◌^◌, IfOk};
ghost use Rattle.tbl_kinds.specs.Places.{bank_size};
ghost use Rattle.validation.specs.Kits.{owners};
ghost use Rattle.tbl_core.specs.Copying.{IsCopy, moved};
ghost use Rattle.tbl_core.specs.Starting.{Holds};
ghost use Rattle.tbl_core.specs.Service.{AskedBelow, works_view};

use crate::engine::Engine;
use crate::parts::{Parts, Room, Telemetry};
use crate::playing::Works;
use arrayvec::ArrayVec;
use desk::Desk;
use request_effects::Report;
use std::alloc::Global;
use store_requests::CopyRoom;
use tbl_kinds::{Admit, Memory};
use tbl_outside::{Bank, Validator};
use validation::Kit;

/// The same identifiers once more.
fn copy_ids(ids: &ArrayVec<u32, 2>) -> ArrayVec<u32, 2>
    ensures { result.items ≡ ids.now.items }
{
    let mut copy = ArrayVec::new();
    let _ = copy.try_extend_from_slice(ids.as_slice());
    copy
}

/// The same lists once more.
fn copy_admit(admit: &Admit) -> Admit
    ensures { result ≡ admit.now }
{
    Admit {
        spacecraft: copy_ids(&admit.spacecraft),
        processor: copy_ids(&admit.processor),
    }
}

impl<B: Bank, C: Validator> Works<B, C> {
    /// What these works take from memory beside the store, once more. Nothing is told yet.
    fn copy_room(&self, alloc: Global) -> Result<Room, Memory>
        ensures { IfOk result (Holds self.now.parts.desk.tables self.now.parts.desk.drawer self.now.gets.items) }
    {
        Ok(Room {
            tables: self.parts.desk.tables.duplicate(alloc)?,
            drawer: self.parts.desk.drawer.duplicate(alloc)?,
            report: Report::make(alloc)?,
            gets: Vec::from_slice(alloc, &self.gets)?,
        })
    }

    /// The same works in memory of their own, over this bank and with these functions.
    fn duplicate(&self, alloc: Global, bank: B, kit: Kit<C>) -> Result<Works<B, C>, Memory>
        requires room { bank_size ≤ B.size bank }
        requires same { B.tells → B.now bank ≡ B.now self.now.parts.store.bank }
        ensures { IfOk result (λ copy. works_view copy ≡ moved bank kit (works_view self.now)) }
    {
        let room = self.copy_room(alloc)?;
        let old = &self.parts.desk;
        let desk = Desk {
            alloc,
            tables: room.tables,
            apps: old.apps.duplicate(),
            kit,
            admit: copy_admit(&old.admit),
            pending: old.pending.duplicate(),
            drawer: room.drawer,
            clock: old.clock,
        };
        Ok(Works {
            parts: Parts {
                desk,
                store: self.parts.store.duplicate(alloc, bank)?,
                ended: self.parts.ended,
                copies: CopyRoom::none(),
            },
            telemetry: Telemetry {
                counters: self.telemetry.counters.duplicate(),
                report: room.report,
            },
            gets: room.gets,
            played: self.played,
            images: self.images,
        })
    }
}

impl<B: Bank, C: Validator> Engine<B, C> {
    /// The validation functions.
    pub fn kit(&self) -> &Kit<C>
        ensures { result.now ≡ self.now.state.kit }
    {
        &self.works.parts.desk.kit
    }

    /// An engine in memory of its own that stands for whatever this one stands for. It is over this bank, which holds the same bytes, and
    /// has these functions, which are of the same applications. The bytes of images and of files may be in the same memory, as long as
    /// neither engine changes them. An Err means out of memory; the bank and the functions are gone then.
    pub fn duplicate(&self, alloc: Global, bank: B, kit: Kit<C>) -> Result<Engine<B, C>, Memory>
        requires room { bank_size ≤ B.size bank }
        requires same { B.tells → B.now bank ≡ B.now self.now.state.store.bank }
        requires owners { owners kit ≡ owners self.now.state.kit }
        requires asked { AskedBelow C.asked (2 ^ 62) kit }
        ensures { IfOk result (IsCopy B.Bank bank kit self.now) }
    {
        Ok(Engine {
            works: self.works.duplicate(alloc, bank, kit)?,
        })
    }
}

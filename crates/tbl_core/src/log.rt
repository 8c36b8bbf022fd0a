//! A request is entered into the history, and played in its place there.

ghost use Rattle.std.specs.Prelude.{◌<◌, length, vec_capacity};
ghost use Rattle.tbl_core.specs.Engine.{MayStillPin};
ghost use Rattle.tbl_core.specs.Entering.{MayBePlayed, IsKept, Advances, AdvancesLent};
ghost use Rattle.tbl_core.specs.Pins.{IsSliceOf};
ghost use Rattle.tbl_core.specs.Service.{core_of};

use crate::engine::Engine;
use crate::service::StepFault;
use tbl_kinds::{Bytes, Entry};
use tbl_outside::{Bank, Validator};
use tbl_registry::Pin;

/// Adds a request that isn't answered yet, and has its entry played in place. If memory runs out, it is taken back.
#[inline(always)]
pub(crate) fn push_played<B: Bank, C: Validator>(
    entries: &mut Vec<Entry>,
    begun: Entry,
    engine: &mut Engine<B, C>,
) -> Result<(), StepFault>
    requires room { length entries.old.items < vec_capacity entries.old }
    requires may { MayBePlayed engine.old begun }
    requires kept { IsKept entries.old.items engine.old }
    ensures steps { Advances B.Bank C.Validator (core_of entries.old.items engine.old) (core_of entries.new.items engine.new) (begun.actor, begun.request) result }
    ensures kept { IsKept entries.new.items engine.new }
{
    let place = entries.len();
    entries.push_reserved(begun);
    let entry = &mut entries[place];
    let played = engine.play(entry);
    if let Err(StepFault::Memory) = played {
        let _ = entries.pop();
    }
    played
}

/// The same for a Read whose bytes were lent.
pub(crate) fn push_read<B: Bank, C: Validator>(
    entries: &mut Vec<Entry>,
    begun: Entry,
    engine: &mut Engine<B, C>,
    pin: &Pin,
    slice: Bytes,
) -> Result<(), StepFault>
    requires room { length entries.old.items < vec_capacity entries.old }
    requires may { MayBePlayed engine.old begun }
    requires kept { IsKept entries.old.items engine.old }
    requires pin { MayStillPin pin.now engine.old }
    requires slice { IsSliceOf pin.now begun.request slice.list }
    ensures steps { AdvancesLent B.Bank C.Validator (core_of entries.old.items engine.old) (core_of entries.new.items engine.new) (begun.actor, begun.request) (pin.now, slice) result }
    ensures kept { IsKept entries.new.items engine.new }
{
    let place = entries.len();
    entries.push_reserved(begun);
    let entry = &mut entries[place];
    let played = engine.play_read(entry, pin, slice);
    if let Err(StepFault::Memory) = played {
        let _ = entries.pop();
    }
    played
}

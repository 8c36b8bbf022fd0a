//! Laws of the spellings: the packet of a value spells that value. So whatever was written is read again, by the clause
//! `again` of the readers.

ghost use Rattle.std.specs.Prelude.{◌<◌};
ghost use Rattle.tbl_kinds.specs.Packets.{telemetry_packet, housekeeping_id, registry_id, event_id};
ghost use Rattle.tbl_kinds.specs.Telemetry.{event_body, housekeeping_body, registry_record};
ghost use Rattle.tlm_packets.specs.Spellings.{IsHead, IsEvent, CountsFit, ValidationFits, ValidationsFit, TimeFits, NamesFit, IsHousekeeping, IsRow, SpellsEvent, SpellsHousekeeping, SpellsRow};

use tbl_kinds::{Event, Housekeeping, RegistryRow, TlmHead};

// In these functions a number that was read is known to fit its type, and a name whose field was made to fit it.

fn head_fits(head: &TlmHead)
    requires { head.now.count < 16384 }
    ensures { IsHead head.now }
{
    let _seconds = head.seconds;
    let _sub = head.sub;
}

fn event_fits(event: &Event)
    ensures { IsEvent event.now }
{
    let _number = event.number;
    let _status = event.status.0;
    let _row = event.row;
    let _detail = event.detail;
}

fn counts_fit(state: &Housekeeping)
    ensures { CountsFit state.now }
{
    let _accepted = state.accepted;
    let _refused = state.refused;
    let _tables = state.tables;
    let _loads = state.loads;
    let _finished = state.finished;
}

fn validation_fits(state: &Housekeeping)
    ensures { ValidationFits state.now }
{
    let _check = state.check;
    let _verdict = state.verdict;
    let _active = state.active;
}

fn validations_fit(state: &Housekeeping)
    ensures { ValidationsFit state.now }
{
    let _good = state.good;
    let _bad = state.bad;
    let _requests = state.requests;
    let _free = state.free;
}

fn time_fits(state: &Housekeeping)
    ensures { TimeFits state.now }
{
    let _seconds = state.seconds;
    let _sub = state.sub;
}

fn names_fit(state: &Housekeeping)
    ensures { NamesFit state.now }
{
    let _validated = state.validated.field();
    let _updated = state.updated.field();
    let _loaded_file = state.loaded_file.field();
    let _dumped_file = state.dumped_file.field();
    let _loaded = state.loaded.field();
}

fn housekeeping_fits(state: &Housekeeping)
    ensures { IsHousekeeping state.now }
{
    counts_fit(state);
    validation_fits(state);
    validations_fit(state);
    time_fits(state);
    names_fit(state);
}

fn row_fits(row: &RegistryRow)
    ensures { IsRow row.now }
{
    let _size = row.size;
    let _check = row.check;
    let _count = row.count;
    let _seconds = row.seconds;
    let _sub = row.sub;
    let _bits = row.bits;
    let _validator = row.validator;
    let _name = row.name.field();
    let _owner = row.owner.field();
    let _file = row.file.field();
}

/// A written event packet is one of that event.
pub fn event_packets_are_read(head: &TlmHead, event: &Event)
    requires { head.now.count < 16384 }
    ensures { SpellsEvent (telemetry_packet event_id head.now (event_body event.now)) event.now }
{
    head_fits(head);
    event_fits(event);
}

/// A written housekeeping packet is one of that state.
pub fn housekeeping_packets_are_read(head: &TlmHead, state: &Housekeeping)
    requires { head.now.count < 16384 }
    ensures { SpellsHousekeeping (telemetry_packet housekeeping_id head.now (housekeeping_body state.now)) state.now }
{
    head_fits(head);
    housekeeping_fits(state);
}

/// A written registry packet is one of that row.
pub fn registry_packets_are_read(head: &TlmHead, row: &RegistryRow)
    requires { head.now.count < 16384 }
    ensures { SpellsRow (telemetry_packet registry_id head.now (registry_record row.now)) row.now }
{
    head_fits(head);
    row_fits(row);
}

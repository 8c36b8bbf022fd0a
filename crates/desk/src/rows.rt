//! What several requests read and report of the table of a row.

ghost use Rattle.std.specs.Prelude.{◌≡◌, ◌-◌, ◌^◌, ◌<◌, ◌≤◌, IsSome};
ghost use Rattle.std.specs.Option.{ForSome};
ghost use Rattle.tbl_model.specs.Tables.{table_at};
ghost use Rattle.tbl_model.specs.Telemetry.{activated};
ghost use Rattle.desk.specs.Rooms.{copy_room, event_room};

use bitflags::Flags;
use tbl_kinds::{Name40, Options};
use tbl_model::{Named, TelemetryEvent};
use tbl_registry::Tables;

/// The length of an event packet.
pub const EVENT_LENGTH: usize = 24;

/// The length of a notice.
pub const NOTICE_LENGTH: usize = 12;

/// The room for the packet of an event, if it can come.
pub fn event_room(can: bool) -> usize
    ensures room { result ≡ event_room can }
    ensures few { result ≤ 24 }
{
    if can { EVENT_LENGTH } else { 0 }
}

/// The full name of the table of a row.
fn name_of(tables: &Tables, row: u8) -> Name40
    requires { IsSome (table_at tables.now row) }
    ensures { ForSome (table_at tables.now row) (λ t. result ≡ t.name) }
{
    let Some(name) = tables.name(row) else {
        unreachable!();
    };
    name.copy()
}

/// The table of a row.
pub fn named(tables: &Tables, row: u8) -> Named
    requires { IsSome (table_at tables.now row) }
    ensures { ForSome (table_at tables.now row) (λ t. result ≡ record { row = row; name = t.name }) }
{
    Named {
        row,
        name: name_of(tables, row),
    }
}

/// The number of the validation function of the table of a row.
pub fn validator(tables: &Tables, row: u8) -> Option<u8>
    ensures { ForSome (table_at tables.now row) (λ t. result ≡ t.validator) }
{
    tables.row(row)?.validator
}

/// That the next image of the table of a row goes active.
pub fn activated(tables: &Tables, row: u8) -> TelemetryEvent
    requires table { IsSome (table_at tables.now row) }
    requires few { ForSome (table_at tables.now row) (λ t. t.count < 2 ^ 32 - 1) }
    ensures { ForSome (table_at tables.now row) (λ t. result ≡ activated row t) }
{
    let Some(table) = tables.row(row) else {
        unreachable!();
    };
    TelemetryEvent::Activated {
        row,
        count: table.count + 1,
        name: name_of(tables, row),
    }
}

/// The room for the event that the copy of an image of the table in the row failed, if it is copied.
pub fn copy_room(tables: &Tables, row: u8) -> usize
    ensures room { result ≡ copy_room (table_at tables.now row) }
    ensures few { result ≤ 24 }
{
    match tables.row(row) {
        Some(table) => event_room(table.flags.contains(Options::CRITICAL)),
        None => 0,
    }
}

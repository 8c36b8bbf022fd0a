//! Housekeeping: dumps that came to their end are written, and the state is reported.

ghost use Rattle.std.specs.Prelude.{◌≡◌, ◌≤◌, ◌+◌, ◌∷◌, Some, length};
ghost use Rattle.std.specs.List.{fold};
ghost use Rattle.tbl_model.specs.Dumps.{housekeeping_effect};
ghost use Rattle.request_effects.specs.Reports.{most_events};
ghost use Rattle.desk.specs.Desk.{IsEmpty, output};
ghost use Rattle.desk.specs.Requests.{Served, command};
ghost use Rattle.desk.specs.Rows.{rows_in};
ghost use Rattle.dump_requests.specs.Housekeeping.{Filed, filing, then_finish, filled_count};

use crate::files::{filled_len, write_filled};
use desk::{Desk, EVENT_LENGTH};
use file_drawer::{Contents, PutFault};
use request_effects::Report;
use tbl_kinds::{Answer, Bytes, Memory, Reply, Status};
use tbl_model::{Shown, TelemetryEvent};
use tbl_outside::Validator;
use tbl_registry::Tables;

/// The length of a housekeeping packet.
const HOUSEKEEPING_LENGTH: usize = 290;

/// Writes the file of the filled dump of the table of a row, if there is one, and then those of further rows. Returns the drawer, the bytes
/// of all files and what is reported of them; no dump ends yet. If memory runs out, the drawer is as it was.
#[cycle(files)]
fn write_row<C: Validator>(
    desk: &mut Desk<C>,
    out: &mut Bytes,
    report: &mut Report,
    row: u8,
    further: &[Option<u8>],
) -> Result<(), Memory>
    requires room { length report.old.events + 1 + length further.now ≤ most_events }
    ensures { Filed (Some row ∷ further.now) (filing desk.old out.old.list report.old) (filing desk.new out.new.list report.new) result }
{
    let Some(len) = filled_len(&desk.tables, row) else {
        return write_all(desk, out, report, further);
    };
    let mut contents = Bytes::make(desk.alloc, len)?;
    let Some(name) = write_filled(&desk.tables, row, &mut contents, desk.clock) else {
        unreachable!();
    };
    out.reserve(len)?;
    match desk.drawer.put(&name, Contents::of(contents)) {
        Err(PutFault::Memory) => Err(Memory),
        Err(PutFault::Full) => {
            report.add_event(TelemetryEvent::NotDumped { row });
            write_all(desk, out, report, further)
        }
        Ok(old) => {
            let _ = write_filled(&desk.tables, row, out, desk.clock);
            report.add_event(TelemetryEvent::Dumped {
                row: Some(row),
                file: name.copy(),
                len: len as u32,
            });
            match write_all(desk, out, report, further) {
                Ok(()) => Ok(()),
                Err(memory) => {
                    desk.drawer.undo(&name, old);
                    Err(memory)
                }
            }
        }
    }
}

/// Writes the files of all filled dumps of the tables in these rows, in their order.
#[cycle(files)]
fn write_all<C: Validator>(
    desk: &mut Desk<C>,
    out: &mut Bytes,
    report: &mut Report,
    places: &[Option<u8>],
) -> Result<(), Memory>
    requires room { length report.old.events + length places.now ≤ most_events }
    ensures { Filed places.now (filing desk.old out.old.list report.old) (filing desk.new out.new.list report.new) result }
{
    let Some((place, further)) = places.split_first() else {
        return Ok(());
    };
    match place {
        None => write_all(desk, out, report, further),
        Some(row) => write_row(desk, out, report, *row, further),
    }
}

/// Ends the filled dump of the table in this row, if there is one: its buffer is free again.
fn end_row(tables: &mut Tables, row: u8)
    ensures { tables.new ≡ then_finish tables.old row }
{
    if filled_len(tables, row).is_some() {
        tables.end_dump(row);
    }
}

/// Ends the filled dumps of the tables in these rows.
fn end_all(tables: &mut Tables, places: &[Option<u8>])
    ensures { tables.new ≡ fold then_finish tables.old (rows_in places.now) }
{
    for place in places {
        if let Some(row) = place {
            end_row(tables, *row);
        }
    }
}

/// How many of the tables in these rows have a filled dump.
fn count_filled(tables: &Tables, places: &[Option<u8>]) -> usize
    ensures count { result ≡ filled_count tables.now (rows_in places.now) }
    ensures few { result ≤ length places.now }
{
    let mut count = 0;
    for place in places {
        if let Some(row) = place {
            if filled_len(tables, *row).is_some() {
                count += 1;
            }
        }
    }
    count
}

/// The ground asks for housekeeping (`CFE_TBL_SEND_HK_MID`): each filled dump is written as its file, in order of rows, or dropped if the
/// drawer is full, and the packet reports the state after. If memory runs out, no dump ends and the drawer is as it was.
#[inline(never)]
pub fn housekeeping<C: Validator>(
    desk: &mut Desk<C>,
    reply: &mut Reply,
    report: &mut Report,
) -> Result<Answer, Memory>
    requires empty { IsEmpty (output reply.old report.old) }
    ensures served { Served C.Validator (command housekeeping_effect 4) desk.old desk.new (output reply.new report.new) result }
{
    let places = desk.tables.in_use();
    let events = 1 + count_filled(&desk.tables, &places);
    reply
        .packets
        .reserve(HOUSEKEEPING_LENGTH + EVENT_LENGTH * events)?;
    write_all(desk, &mut reply.bytes, report, &places)?;
    end_all(&mut desk.tables, &places);
    report.show(Shown::Housekeeping);
    Ok(Answer::plain(Status::SUCCESS))
}

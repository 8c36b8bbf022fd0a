//! The ground.

ghost use Rattle.std.specs.Prelude.{◌<◌, ◌≤◌, length, IfOk};
ghost use Rattle.tbl_kinds.specs.Requests.{Fits};
ghost use Rattle.tbl_kinds.specs.declared.request.Actor.TheVariants.{Ground};
ghost use Rattle.tbl_live.specs.Seats.{IsOfActor, IsSame};
ghost use Rattle.live_example.specs.Flights.{AreOfBoard};

use crate::applications::LIMITS;
use crate::shared::{Place, Shared, Stop};
use cfe_headers::{FileHeader, HEADER_LENGTH, write_cmd};
use std::alloc::Global;
use std::sync::Wait;
use table_files::{IMAGE_PLACE, TABLE_SUBTYPE, TableFile, write_table_file};
use tbl_kinds::{Bytes, FILE_NAME_LENGTH, Memory, Name, Request, Uplink};
use tbl_live::{REPLY_LIMIT, Ticket};

/// The message id of commands, and the function codes of three.
const COMMAND_ID: u16 = 0x1804;

const LOAD: u8 = 2;

const VALIDATE: u8 = 4;

const ACTIVATE: u8 = 5;

/// The name of the file with the new limits.
const FILE: &[u8] = b"/cf/limits.tbl";

/// The full name of the table.
const TABLE: &[u8] = b"GUIDE.LIMITS";

/// Uplinks the new limits as a table file.
fn uplink(alloc: Global) -> Result<Request, Memory>
    ensures { IfOk result (Fits Ground) }
{
    let mut spelling = Bytes::make(alloc, FILE_NAME_LENGTH + IMAGE_PLACE + LIMITS)?;
    Name::<64>::of(FILE).append_field(&mut spelling);
    let header = FileHeader {
        subtype: TABLE_SUBTYPE,
        length: HEADER_LENGTH as u32,
        spacecraft: 66,
        processor: 1,
        application: 0,
        seconds: 0,
        sub: 0,
        description: Name::<32>::of(b"New limits").field(),
    };
    let file = TableFile {
        offset: 0,
        count: LIMITS as u32,
        name: Name::of(TABLE),
    };
    write_table_file(&mut spelling, &header, &file, &[2; LIMITS]);
    Ok(Request::File {
        file: Uplink::of(spelling),
    })
}

/// A command with this payload.
fn command(alloc: Global, code: u8, payload: &[u8]) -> Result<Request, Memory>
    requires code { code < 128 }
    requires payload { length payload.now ≤ 64 }
    ensures { IfOk result (Fits Ground) }
{
    let mut bytes = Bytes::make(alloc, 8 + payload.len())?;
    write_cmd(&mut bytes, COMMAND_ID, 0, code, payload);
    Ok(Request::Command { bytes })
}

/// The payload of VALIDATE for the inactive image of the table: two zeros, and its name.
fn validated() -> [u8; 42] {
    let mut payload = [0; 42];
    payload[2..].copy_from_slice(&Name::<40>::of(TABLE).field());
    payload
}

/// Uplinks new limits, loads and validates them, and requests that they go active.
#[tactic(auto, using(tbl_live::proofs::SeatLemmas::same_then))]
pub(crate) fn load_new_limits<R: Wait>(
    rt: &R,
    alloc: Global,
    shared: &Shared,
    seat: &mut Place,
) -> Result<[Ticket; 4], Stop>
    requires ground { IsOfActor shared.now.service.of 0 seat.old }
    ensures same { IsSame seat.old seat.new }
    ensures shown { IfOk result (AreOfBoard shared.now.board) }
{
    let mut out = Bytes::make(alloc, REPLY_LIMIT)?;
    let load = command(alloc, LOAD, &Name::<64>::of(FILE).field())?;
    let validate = command(alloc, VALIDATE, &validated())?;
    let activate = command(alloc, ACTIVATE, &Name::<40>::of(TABLE).field())?;
    let (_, uplinked) = shared.call_shown(rt, seat, uplink(alloc)?, &mut out)?;
    let (_, loaded) = shared.call_shown(rt, seat, load, &mut out)?;
    let (_, validated) = shared.call_shown(rt, seat, validate, &mut out)?;
    let (_, activated) = shared.call_shown(rt, seat, activate, &mut out)?;
    Ok([uplinked, loaded, validated, activated])
}

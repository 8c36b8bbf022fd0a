//! Telemetry packets, and notices.

ghost use Rattle.std.specs.Prelude.{◌<◌, IfOk};

use crate::line::{Line, room_for};
use cfe_headers::write_tlm;
use std::alloc::Global;
use tbl_kinds::{Event, Housekeeping, RegistryRow, Status, TlmHead, u16_at, u32_at};
use test_tables::{CaseFault, same_bytes};
use tlm_packets::{
    read_event, read_housekeeping, read_registry, registry_bytes, write_event, write_housekeeping,
    write_notice, write_registry,
};

/// The longest body of a packet that is written, and the greatest number of two bytes, sequence count and code.
const MOST_BODY: usize = 65_000;

const MOST_SHORT: u32 = 65_535;

const MOST_COUNT: u32 = 16_383;

const MOST_CODE: u32 = 127;

/// How many sequence counts there are.
const COUNTS: u16 = 16_384;

/// The primary header and the time.
const HEAD_LENGTH: usize = 12;

/// A telemetry packet is written: its message id, and its sequence count and time.
pub(crate) fn try_telemetry(
    alloc: Global,
    id: u32,
    [count, seconds, sub]: [u32; 3],
    body: &[u8],
    wanted: &[u8],
) -> Result<(), CaseFault> {
    if body.len() > MOST_BODY || id > MOST_SHORT || count > MOST_COUNT || sub > MOST_SHORT {
        return Err(CaseFault::Unreadable);
    }
    let mut out = room_for(alloc, 12 + body.len())?;
    write_tlm(&mut out, id as u16, count as u16, seconds, sub as u16, body);
    same_bytes(alloc, out.bytes(), wanted)
}

/// An event packet is written: its sequence count and time, and the number, the status, the row and the detail.
pub(crate) fn try_event(
    alloc: Global,
    [count, seconds, sub]: [u32; 3],
    [number, status, row, detail]: [u32; 4],
    wanted: &[u8],
) -> Result<(), CaseFault> {
    if count > MOST_COUNT || sub > MOST_SHORT || number > MOST_SHORT || row > MOST_SHORT {
        return Err(CaseFault::Unreadable);
    }
    let (count, sub) = (count as u16, sub as u16);
    let event = Event {
        number: number as u16,
        status: Status(status),
        row: row as u16,
        detail,
    };
    let mut out = room_for(alloc, 24)?;
    write_event(
        &mut out,
        &TlmHead {
            count,
            seconds,
            sub,
        },
        &event,
    );
    same_bytes(alloc, out.bytes(), wanted)
}

/// A notice is written: its sequence count, message id, function code and parameter.
pub(crate) fn try_notice(
    alloc: Global,
    [count, msg, code, parameter]: [u32; 4],
    wanted: &[u8],
) -> Result<(), CaseFault> {
    if count > MOST_COUNT || msg > MOST_SHORT || code > MOST_CODE {
        return Err(CaseFault::Unreadable);
    }
    let mut out = room_for(alloc, 12)?;
    write_notice(&mut out, count as u16, msg as u16, code as u8, parameter);
    same_bytes(alloc, out.bytes(), wanted)
}

/// The sequence count and the time of a packet.
fn head_in(packet: &[u8]) -> Result<TlmHead, CaseFault>
    ensures { IfOk result (λ head. head.count < 16384) }
{
    if packet.len() < HEAD_LENGTH {
        return Err(CaseFault::Unreadable);
    }
    Ok(TlmHead {
        count: u16_at(packet, 2) % COUNTS,
        seconds: u32_at(packet, 6),
        sub: u16_at(packet, 10),
    })
}

/// An event packet is written again.
fn rewrite_event(alloc: Global, event: &Event, packet: &[u8]) -> Result<(), CaseFault> {
    let head = head_in(packet)?;
    let mut out = room_for(alloc, 24)?;
    write_event(&mut out, &head, event);
    same_bytes(alloc, out.bytes(), packet)
}

/// An event packet is read, and one that is right is written again.
pub(crate) fn tell_event(alloc: Global, line: &mut Line, bytes: &[u8]) -> Result<(), CaseFault> {
    match read_event(bytes) {
        Some(event) => {
            let (number, row) = (u32::from(event.number), u32::from(event.row));
            line.numbers(&[number, event.status.0, row, event.detail]);
            rewrite_event(alloc, &event, bytes)
        }
        None => Ok(line.word("none")),
    }
}

/// The fields of a housekeeping packet, in their order.
fn tell_state(line: &mut Line, state: &Housekeeping) {
    line.numbers(&[
        u32::from(state.accepted),
        u32::from(state.refused),
        u32::from(state.tables),
        u32::from(state.loads),
        u32::from(state.finished),
        state.check,
    ]);
    line.shown(&state.verdict);
    line.numbers(&[
        u32::from(state.active),
        u32::from(state.good),
        u32::from(state.bad),
        u32::from(state.requests),
        u32::from(state.free),
        state.seconds,
        u32::from(state.sub),
    ]);
    line.field(state.validated.bytes());
    line.field(state.updated.bytes());
    line.field(state.loaded_file.bytes());
    line.field(state.dumped_file.bytes());
    line.field(state.loaded.bytes());
}

/// A housekeeping packet is written again.
fn rewrite_housekeeping(
    alloc: Global,
    state: &Housekeeping,
    packet: &[u8],
) -> Result<(), CaseFault> {
    let head = head_in(packet)?;
    let mut out = room_for(alloc, 290)?;
    write_housekeeping(&mut out, &head, state);
    same_bytes(alloc, out.bytes(), packet)
}

/// A housekeeping packet is read, and one that is right is written again.
pub(crate) fn tell_housekeeping(
    alloc: Global,
    line: &mut Line,
    bytes: &[u8],
) -> Result<(), CaseFault> {
    match read_housekeeping(bytes) {
        Some(state) => {
            tell_state(line, &state);
            rewrite_housekeeping(alloc, &state, bytes)
        }
        None => Ok(line.word("none")),
    }
}

/// The fields of a row of the registry, in their order.
fn tell_row(line: &mut Line, row: &RegistryRow) {
    line.numbers(&[row.size, row.check, row.count, row.seconds]);
    line.numbers(&[
        u32::from(row.sub),
        u32::from(row.bits),
        u32::from(row.validator),
    ]);
    line.field(row.name.bytes());
    line.field(row.owner.bytes());
    line.field(row.file.bytes());
}

/// A registry packet is written again.
fn rewrite_registry(alloc: Global, row: &RegistryRow, packet: &[u8]) -> Result<(), CaseFault> {
    let head = head_in(packet)?;
    let mut out = room_for(alloc, 156)?;
    write_registry(&mut out, &head, row);
    same_bytes(alloc, out.bytes(), packet)
}

/// The record of a registry packet is written alone.
fn rewrite_row(alloc: Global, row: &RegistryRow, packet: &[u8]) -> Result<(), CaseFault> {
    let Some(record) = packet.get(HEAD_LENGTH..) else {
        return Err(CaseFault::Unreadable);
    };
    let mut out = room_for(alloc, 144)?;
    registry_bytes(&mut out, row);
    same_bytes(alloc, out.bytes(), record)
}

/// A registry packet is read, and one that is right is written again, its record alone too.
pub(crate) fn tell_registry(alloc: Global, line: &mut Line, bytes: &[u8]) -> Result<(), CaseFault> {
    match read_registry(bytes) {
        Some(row) => {
            tell_row(line, &row);
            rewrite_registry(alloc, &row, bytes)?;
            rewrite_row(alloc, &row, bytes)
        }
        None => Ok(line.word("none")),
    }
}

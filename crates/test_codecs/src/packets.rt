//! Command packets.

use crate::line::{Line, room_for};
use cfe_headers::{read_packet, write_cmd};
use cmd_packets::{Ground, read_command};
use std::alloc::Global;
use test_tables::{CaseFault, same_bytes};

/// What a command asks.
fn tell_ground_command(line: &mut Line, command: &Ground) {
    match command {
        Ground::Load { file } => line.named("Load", file.bytes()),
        Ground::Dump {
            select,
            table,
            file,
        } => {
            tell_selected(line, "Dump", *select, table.bytes());
            line.name(file.bytes());
        }
        Ground::Validate { select, table } => {
            tell_selected(line, "Validate", *select, table.bytes());
        }
        Ground::Activate { table } => line.named("Activate", table.bytes()),
        Ground::DumpRegistry { file } => line.named("DumpRegistry", file.bytes()),
        Ground::SendRegistry { table } => line.named("SendRegistry", table.bytes()),
        Ground::DeleteCds { table } => line.named("DeleteCds", table.bytes()),
        Ground::Abort { table } => line.named("Abort", table.bytes()),
        Ground::Housekeeping => line.word("Housekeeping"),
        Ground::Noop => line.word("Noop"),
        _ => line.word("ResetCounters"),
    }
}

fn tell_selected(line: &mut Line, word: &str, select: u16, table: &[u8]) {
    line.word(word);
    line.number(u32::from(select));
    line.name(table);
}

/// A packet is read.
pub(crate) fn tell_packet(line: &mut Line, bytes: &[u8]) {
    match read_packet(bytes) {
        Ok(packet) => {
            line.word("id");
            line.bytes(&packet.id.to_be_bytes());
            line.word("code");
            line.number(u32::from(packet.code));
        }
        Err(fault) => line.shown(&fault),
    }
}

/// A command is read. One that is refused is told with the status and the detail of its answer.
pub(crate) fn tell_command(line: &mut Line, bytes: &[u8]) {
    let mut command = Ok(Ground::Noop);
    read_command(bytes, &mut command);
    match command {
        Ok(command) => tell_ground_command(line, &command),
        Err(fault) => {
            let answer = fault.answer();
            line.shown(&fault);
            line.numbers(&[answer.status.0, answer.detail]);
        }
    }
}

/// The longest payload of a packet that is written, and the greatest number of two bytes, sequence count and code.
const MOST_PAYLOAD: usize = 65_000;

const MOST_SHORT: u32 = 65_535;

const MOST_COUNT: u32 = 16_383;

const MOST_CODE: u32 = 127;

/// A command packet is written: its message id, sequence count and function code.
pub(crate) fn try_written(
    alloc: Global,
    [id, count, code]: [u32; 3],
    payload: &[u8],
    wanted: &[u8],
) -> Result<(), CaseFault> {
    if payload.len() > MOST_PAYLOAD || id > MOST_SHORT || count > MOST_COUNT || code > MOST_CODE {
        return Err(CaseFault::Unreadable);
    }
    let mut out = room_for(alloc, 8 + payload.len())?;
    write_cmd(&mut out, id as u16, count as u16, code as u8, payload);
    same_bytes(alloc, out.bytes(), wanted)
}

//! Reading a command.

ghost use Rattle.std.specs.Prelude.{◌≡◌, ◌==◌, ◌+◌, ◌<◌, ◌≤◌, Some, Ok, length, slice_get, if◌then◌else◌};
ghost use Rattle.std.specs.Option.{option_map};
ghost use Rattle.tbl_kinds.specs.GroundCommands.{forms, payload_len as len_of, name_at, table_of, file_of, is_named, with_names as names_tested, by_form, by_code as by_code_lem, by_id, refused, command_in};
ghost use Rattle.cmd_packets.specs.declared.commands.Ground.{Ground};
ghost use Rattle.cmd_packets.specs.Views.{command_of, Gives};

use crate::commands::{CmdFault, Ground};
use cfe_headers::read_packet;
use tbl_kinds::{Name, Status, u16_at};

/// The message id of commands.
const COMMAND_ID: u16 = 0x1804;

/// The message id that asks for housekeeping.
const HOUSEKEEPING_REQUEST_ID: u16 = 0x180C;

/// Where the payload of a command packet begins.
const PAYLOAD_PLACE: usize = 8;

/// How many bytes the payload has, by the function code.
fn payload_len(code: u8) -> Option<usize>
    ensures { result ≡ len_of code }
{
    match code {
        0 | 1 => Some(0),
        2 | 6 => Some(64),
        3 => Some(106),
        4 => Some(42),
        5 | 7 | 8 | 9 => Some(40),
        _ => None,
    }
}

/// The name at a place of the payload.
fn name_at<const WIDTH: usize>(payload: &[u8], place: usize) -> Name<WIDTH>
    requires within { place + WIDTH ≤ length payload.now }
    requires narrow { WIDTH < 256 }
    ensures { result ≡ name_at place WIDTH payload.now }
{
    Name::of(&payload[place..place + WIDTH])
}

/// Puts what a payload of the right length reads as into its place, by the function code. Each command is made there: one that a
/// function gives is copied.
fn put_fields(code: u8, payload: &[u8], command: &mut Result<Ground, CmdFault>)
    requires { len_of code ≡ Some (length payload.now) }
    ensures { (read : Ground) × (command.new ≡ Ok read) × (option_map (λ form. form.reads payload.now) (slice_get forms code) ≡ Some (command_of read)) }
{
    match code {
        0 => *command = Ok(Ground::Noop),
        1 => *command = Ok(Ground::ResetCounters),
        2 => *command = Ok(Ground::Load {
            file: name_at(payload, 0),
        }),
        3 => *command = Ok(Ground::Dump {
            select: u16_at(payload, 0),
            table: name_at(payload, 2),
            file: name_at(payload, 42),
        }),
        4 => *command = Ok(Ground::Validate {
            select: u16_at(payload, 0),
            table: name_at(payload, 2),
        }),
        5 => *command = Ok(Ground::Activate {
            table: name_at(payload, 0),
        }),
        6 => *command = Ok(Ground::DumpRegistry {
            file: name_at(payload, 0),
        }),
        7 => *command = Ok(Ground::SendRegistry {
            table: name_at(payload, 0),
        }),
        8 => *command = Ok(Ground::DeleteCds {
            table: name_at(payload, 0),
        }),
        9 => *command = Ok(Ground::Abort {
            table: name_at(payload, 0),
        }),
        _ => unreachable!(),
    }
}

/// Whether the table's name, if the command has one, is a name.
fn is_table_named(command: &Ground) -> bool
    ensures { result ≡ is_named (table_of (command_of command.now)) }
{
    match command {
        Ground::Dump { table, .. }
        | Ground::Validate { table, .. }
        | Ground::Activate { table }
        | Ground::SendRegistry { table }
        | Ground::DeleteCds { table }
        | Ground::Abort { table } => table.is_name(),
        _ => true,
    }
}

/// Whether the file's name, if the command has one, is a name.
fn is_file_named(command: &Ground) -> bool
    ensures { result ≡ is_named (file_of (command_of command.now)) }
{
    match command {
        Ground::Load { file } | Ground::Dump { file, .. } | Ground::DumpRegistry { file } => {
            file.is_name()
        }
        _ => true,
    }
}

/// Puts the fault of a command's names, if one of them isn't a name, into its place.
fn test_names(command: &mut Result<Ground, CmdFault>)
    ensures { (read : Ground) → command.old ≡ Ok read → Gives command.new (names_tested (command_of read)) }
{
    if let Ok(read) = command {
        if !is_table_named(read) {
            *command = Err(CmdFault::BadName(1));
        } else if !is_file_named(read) {
            *command = Err(CmdFault::BadName(2));
        }
    }
}

/// Reads the command of a function code with its payload, by its form. It isn't inlined: a command without a payload would clear
/// and copy the memory of names.
#[inline(never)]
fn read_by_form(code: u8, payload: &[u8], command: &mut Result<Ground, CmdFault>)
    requires { length payload.now ≤ 65534 }
    ensures { Gives command.new (by_code_lem code (slice_get forms code) payload.now) }
{
    match payload_len(code) {
        None => *command = Err(CmdFault::BadCode(code)),
        Some(len) if payload.len() == len => {
            put_fields(code, payload, command);
            test_names(command);
        }
        Some(_) => *command = Err(CmdFault::BadLength(payload.len() as u32)),
    }
}

/// A command without a payload, or the fault that there is one.
fn without_payload(command: Ground, payload: &[u8]) -> Result<Ground, CmdFault>
    requires { length payload.now ≤ 65534 }
    ensures { Gives result (if length payload.now == 0 then Ok (command_of command) else refused Status.ERR_BAD_LENGTH (length payload.now)) }
{
    if payload.is_empty() {
        Ok(command)
    } else {
        Err(CmdFault::BadLength(payload.len() as u32))
    }
}

/// Reads the command of a message id and a function code with its payload. The request for housekeeping has an empty one.
fn read_by_id(id: u16, code: u8, payload: &[u8], command: &mut Result<Ground, CmdFault>)
    requires { length payload.now ≤ 65534 }
    ensures { Gives command.new (by_id id code payload.now) }
{
    match id {
        HOUSEKEEPING_REQUEST_ID => *command = without_payload(Ground::Housekeeping, payload),
        COMMAND_ID => match code {
            0 => *command = without_payload(Ground::Noop, payload),
            1 => *command = without_payload(Ground::ResetCounters, payload),
            _ => read_by_form(code, payload, command),
        },
        _ => *command = Err(CmdFault::BadMessageId(id)),
    }
}

/// Reads a command from a packet (CCSDS 133.0-B), all of the bytes, into its place: the primary header, cFE's command secondary
/// header, and from place 8 the payload that `Ground` tells for each command. Where it is none, the first fault in the order of
/// `CmdFault` is put there. The selector of an image isn't tested. The sequence flags and count, the high bit of the code
/// byte, what stands in a name field after the name's zero and the function code of a housekeeping request aren't looked
/// at.
#[tactic(auto, unfolding(tbl_kinds::specs::GroundCommands::command_in))]
pub fn read_command(bytes: &[u8], command: &mut Result<Ground, CmdFault>)
    ensures { Gives command.new (command_in bytes.now) }
{
    match read_packet(bytes) {
        Ok(packet) => {
            let (_, payload) = bytes.split_at(PAYLOAD_PLACE);
            read_by_id(packet.id, packet.code, payload, command);
        }
        Err(fault) => *command = Err(CmdFault::BadPacket(fault)),
    }
}

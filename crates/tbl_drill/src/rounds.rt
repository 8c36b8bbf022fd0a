//! The record of a round.

ghost use Rattle.std.specs.Prelude.{◌≡◌, ◌+◌, ◌<◌, ◌≤◌, ◌++◌, length, replicate, IfOk};
ghost use Rattle.tbl_kinds.specs.Names.{name_field};
ghost use Rattle.tbl_kinds.specs.Numbers.{two};
ghost use Rattle.tbl_kinds.specs.Packets.{command_id, command_packet};
ghost use Rattle.tbl_kinds.specs.Records.{without_room};
ghost use Rattle.tbl_kinds.specs.GroundCommands.{load, validate, activate};
ghost use Rattle.tbl_kinds.specs.declared.request.Request.TheVariants as ask;
ghost use Rattle.cfe_headers.specs.FileHeaders.{header_of};
ghost use Rattle.tbl_drill.specs.Generator.{after};
ghost use Rattle.tbl_drill.specs.Drill.{requested, command, file_for, file_name, header, just, roomless, round_from, size, table_name};

use crate::generator::Generator;
use crate::opening::TABLE_SIZE;
use crate::record::{Record, app, ground};
use arrayvec::ArrayVec;
use cfe_headers::{FileHeader, HEADER_LENGTH, write_cmd};
use std::alloc::Global;
use table_files::{IMAGE_PLACE, TABLE_SUBTYPE, TableFile, write_table_file};
use tbl_kinds::fields::put;
use tbl_kinds::{Bytes, FILE_NAME_LENGTH, Memory, Name, Name40, Name64, Request, Uplink};

/// How many bytes a file of a drill loads.
const PIECE: usize = 32;

/// The message id of commands.
const COMMAND_ID: u16 = 0x1804;

/// The full name of a table: of one buffer, of two, and critical.
fn table_name_of(table: u16) -> Name40
    requires { table < 3 }
    ensures { result ≡ table_name table }
{
    match table {
        0 => Name::of(b"D1.S"),
        1 => Name::of(b"D1.D"),
        _ => Name::of(b"D1.C"),
    }
}

fn drill_file() -> Name64
    ensures { result ≡ file_name }
{
    Name::of(b"/d")
}

/// A whole image, full of one byte.
fn load_image(alloc: Global, handle: u16, byte: u8) -> Result<Request, Memory>
    ensures { IfOk result (λ request. without_room request ≡ ask.LoadImage handle (just (replicate size byte))) }
{
    let mut image = Bytes::make(alloc, TABLE_SIZE as usize)?;
    image.append(&[byte; TABLE_SIZE as usize]);
    Ok(Request::LoadImage { handle, image })
}

/// The header of a table file of time 0.
fn file_header() -> FileHeader
    ensures header { header_of result ≡ header }
    ensures subtype { result.subtype ≡ 8 }
{
    FileHeader {
        subtype: TABLE_SUBTYPE,
        length: HEADER_LENGTH as u32,
        spacecraft: 66,
        processor: 1,
        application: 0,
        seconds: 0,
        sub: 0,
        description: Name::<32>::of(b"Table image").field(),
    }
}

/// The file that loads half a table from a place on that the byte gives.
#[tactic(auto, unfolding(crate::specs::Drill::file_for))]
fn file(alloc: Global, table: u16, byte: u8) -> Result<Request, Memory>
    requires { table < 3 }
    ensures { IfOk result (λ request. request ≡ ask.File (record { name = file_name; bytes = file_for table byte })) }
{
    let mut spelling = Bytes::make(alloc, FILE_NAME_LENGTH + IMAGE_PLACE + PIECE)?;
    drill_file().append_field(&mut spelling);
    let file = TableFile {
        offset: u32::from(byte % 32),
        count: PIECE as u32,
        name: table_name_of(table),
    };
    write_table_file(&mut spelling, &file_header(), &file, &[byte; PIECE]);
    Ok(Request::File {
        file: Uplink::of(spelling),
    })
}

/// A command with sequence count 0.
fn command_of(alloc: Global, code: u8, payload: &[u8]) -> Result<Request, Memory>
    requires code { code < 128 }
    requires payload { length payload.now ≤ 64 }
    ensures { IfOk result (λ request. without_room request ≡ ask.Command (just (command_packet command_id 0 code payload.now))) }
{
    let mut bytes = Bytes::make(alloc, 8 + payload.len())?;
    write_cmd(&mut bytes, COMMAND_ID, 0, code, payload);
    Ok(Request::Command { bytes })
}

/// LOAD of the drill's file.
#[tactic(auto, unfolding(crate::specs::Drill::command))]
fn load_command(alloc: Global) -> Result<Request, Memory>
    ensures { IfOk result (λ request. without_room request ≡ command (load file_name)) }
{
    command_of(alloc, 2, &drill_file().field())
}

/// VALIDATE of a table's inactive image.
#[tactic(auto, unfolding(crate::specs::Drill::command))]
fn validate_command(alloc: Global, table: u16) -> Result<Request, Memory>
    requires { table < 3 }
    ensures { IfOk result (λ request. without_room request ≡ command (validate 0 (table_name table))) }
{
    let mut payload = ArrayVec::<u8, 42>::new();
    put(&mut payload, &0u16.to_be_bytes());
    put(&mut payload, &table_name_of(table).field());
    command_of(alloc, 4, payload.as_slice())
}

/// ACTIVATE of a table.
#[tactic(auto, unfolding(crate::specs::Drill::command))]
fn activate_command(alloc: Global, table: u16) -> Result<Request, Memory>
    requires { table < 3 }
    ensures { IfOk result (λ request. without_room request ≡ command (activate (table_name table))) }
{
    command_of(alloc, 5, &table_name_of(table).field())
}

/// What is requested in a round: by the kind one of eight requests, for a table, with a byte.
fn requested_of(alloc: Global, kind: u64, table: u16, byte: u8) -> Result<Record, Memory>
    requires kind { kind < 8 }
    requires table { table < 3 }
    ensures { IfOk result (λ p. roomless p ≡ requested kind table byte) }
{
    let shared = table + 3;
    let record = match kind {
        0 => app(1, load_image(alloc, table, byte)?),
        1 => ground(file(alloc, table, byte)?),
        2 => ground(load_command(alloc)?),
        3 => ground(validate_command(alloc, table)?),
        4 => ground(activate_command(alloc, table)?),
        5 => app(1, Request::Manage { handle: table }),
        6 if byte < 128 => app(2, Request::Get { handle: shared }),
        6 => app(2, Request::Release { handle: shared }),
        _ => app(
            2,
            Request::Read {
                handle: shared,
                offset: 0,
                len: TABLE_SIZE,
            },
        ),
    };
    Ok(record)
}

/// The record of the round that begins with the generator as it is: three draws decide it.
#[tactic(auto, unfolding(crate::specs::Drill::round_from))]
pub(crate) fn round_record(alloc: Global, generator: &mut Generator) -> Result<Record, Memory>
    ensures record { IfOk result (λ p. roomless p ≡ round_from generator.old.number) }
    ensures number { generator.new.number ≡ after (after (after generator.old.number)) }
{
    let kind = generator.draw(8);
    let table = generator.draw(3) as u16;
    let byte = generator.draw(256) as u8;
    requested_of(alloc, kind, table, byte)
}

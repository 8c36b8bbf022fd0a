//! Names in their fields, and who may make a request.

use crate::line::{Line, room_for};
use std::alloc::Global;
use tbl_kinds::{Actor, Name, Name20, Request, ResetKind, fits};
use test_tables::{CaseFault, uplink_of};

/// How many bytes the field of an application's name has.
const FIELD: usize = 20;

/// What the field of an application's name reads as, and whether that is a name.
pub(crate) fn tell_name(line: &mut Line, field: &[u8]) {
    if field.len() > FIELD {
        return line.word("too long");
    }
    let name: Name20 = Name::of(field);
    line.shown(&name.is_name());
    line.name(name.bytes());
    if name.copy() != name {
        line.word("copied otherwise");
    }
}

fn command(alloc: Global) -> Result<Request, CaseFault> {
    Ok(Request::Command {
        bytes: room_for(alloc, 0)?,
    })
}

fn file(alloc: Global) -> Result<Request, CaseFault> {
    Ok(Request::File {
        file: uplink_of(alloc, &Name::of(b"/a"), b"")?,
    })
}

/// A request, by its name in the table.
fn request_named(alloc: Global, word: &str) -> Result<Request, CaseFault> {
    match word {
        "command" => command(alloc),
        "file" => file(alloc),
        "time" => Ok(Request::Time { seconds: 5, sub: 0 }),
        "reset" => Ok(Request::Reset {
            kind: ResetKind::PowerOn,
        }),
        "start" => Ok(Request::Start {
            name: Name::of(b"A"),
        }),
        "register" => Ok(register(None)),
        "register-254" => Ok(register(Some(254))),
        "register-255" => Ok(register(Some(255))),
        "exit" => Ok(Request::Exit),
        "delete" => Ok(Request::CdsDelete { slot: 0 }),
        _ => Err(CaseFault::Unreadable),
    }
}

/// A request to register a table with a validator.
fn register(validator: Option<u8>) -> Request {
    Request::Register {
        name: Name::of(b"T"),
        size: 4,
        flags: 0,
        validator,
    }
}

/// How many applications from one number to another may make a request.
fn how_many(request: &Request, from: u8, to: u8) -> usize {
    (from..=to)
        .filter(|number| fits(Actor::App(*number), request))
        .count()
}

/// Who may make a request.
fn actors_of(request: &Request) -> &'static str {
    let ground = fits(Actor::Ground, request);
    match (ground, how_many(request, 1, 16), how_many(request, 0, 255)) {
        (true, 0, 0) => "the ground",
        (false, 16, 16) => "applications 1 to 16",
        (false, 0, 0) => "nobody",
        _ => "others",
    }
}

/// Of all numbers, those of the actors that may make a request.
pub(crate) fn tell_actors(alloc: Global, line: &mut Line, word: &str) -> Result<(), CaseFault> {
    let request = request_named(alloc, word)?;
    line.word(actors_of(&request));
    Ok(())
}

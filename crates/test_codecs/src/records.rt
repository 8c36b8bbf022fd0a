//! Session records, and the two spellings of a transcript.

ghost use Rattle.std.specs.Prelude.{◌≤◌, length};
ghost use Rattle.tbl_kinds.specs.Records.{body_limit, body_of};
ghost use Rattle.tbl_kinds.specs.Requests.{Fits};

use crate::line::{Line, room_for};
use session_records::{Next, next_record, write_record};
use std::alloc::Global;
use tbl_kinds::{Actor, Request};
use test_tables::{CaseFault, same_bytes};
use transcript::{read_end, read_entry};

/// The time, a reset, or the end of an application.
fn tell_short(line: &mut Line, request: &Request) {
    match request {
        Request::Time { seconds, sub } => line.numbered("Time", &[*seconds, u32::from(*sub)]),
        Request::Reset { kind } => {
            line.word("Reset");
            line.shown(kind);
        }
        _ => line.word("Exit"),
    }
}

/// A word, and a number after it.
fn tell_number(line: &mut Line, word: &str, number: u16) {
    line.word(word);
    line.number(u32::from(number));
}

/// A request of an application that has a handle or a slot, and nothing else.
fn tell_numbered(line: &mut Line, request: &Request) {
    match request {
        Request::Unregister { handle } => tell_number(line, "Unregister", *handle),
        Request::Update { handle } => tell_number(line, "Update", *handle),
        Request::Validate { handle } => tell_number(line, "Validate", *handle),
        Request::Manage { handle } => tell_number(line, "Manage", *handle),
        Request::DumpToBuffer { handle } => tell_number(line, "DumpToBuffer", *handle),
        Request::Get { handle } => tell_number(line, "Get", *handle),
        Request::Release { handle } => tell_number(line, "Release", *handle),
        Request::GetStatus { handle } => tell_number(line, "GetStatus", *handle),
        Request::CdsRestore { slot } => tell_number(line, "CdsRestore", *slot),
        Request::CdsDelete { slot } => tell_number(line, "CdsDelete", *slot),
        request => tell_short(line, request),
    }
}

/// A request of an application that names a table by its handle, and has more than that.
fn tell_handled(line: &mut Line, request: &Request) {
    match request {
        Request::LoadImage { handle, image } => {
            line.numbered("LoadImage", &[u32::from(*handle)]);
            line.bytes(image.bytes());
        }
        Request::LoadFile { handle, name } => {
            line.numbered("LoadFile", &[u32::from(*handle)]);
            line.name(name.name().bytes());
        }
        Request::Edit {
            handle,
            offset,
            bytes,
        } => {
            line.numbered("Edit", &[u32::from(*handle), *offset]);
            line.bytes(bytes.bytes());
        }
        Request::Read {
            handle,
            offset,
            len,
        } => line.numbered("Read", &[u32::from(*handle), *offset, *len]),
        Request::Notify {
            handle,
            msg,
            code,
            parameter,
        } => {
            line.numbered("Notify", &[u32::from(*handle), u32::from(*msg)]);
            line.numbers(&[u32::from(*code), *parameter]);
        }
        request => tell_numbered(line, request),
    }
}

/// A request that a record can have.
fn tell_request(line: &mut Line, request: &Request) {
    match request {
        Request::Command { bytes } => {
            line.word("Command");
            line.bytes(bytes.bytes());
        }
        Request::File { file } => {
            line.named("File", file.name().bytes());
            line.bytes(file.bytes());
        }
        Request::Start { name } => line.named("Start", name.bytes()),
        Request::Register {
            name,
            size,
            flags,
            validator,
        } => {
            line.named("Register", name.bytes());
            line.numbers(&[*size, u32::from(*flags)]);
            line.shown(validator);
        }
        Request::Share { name } => line.named("Share", name.bytes()),
        Request::GetInfo { name } => line.named("GetInfo", name.bytes()),
        Request::CdsRegister { name, size } => {
            line.named("CdsRegister", name.bytes());
            line.number(*size);
        }
        Request::CdsCopy { slot, image } => {
            line.numbered("CdsCopy", &[u32::from(*slot)]);
            line.bytes(image.bytes());
        }
        request => tell_handled(line, request),
    }
}

/// A record is written again.
fn rewrite_record(
    alloc: Global,
    actor: Actor,
    request: &Request,
    record: &[u8],
) -> Result<(), CaseFault>
    requires fits { Fits actor request.now }
    requires within { length (body_of request.now) ≤ body_limit }
{
    let mut out = room_for(alloc, 0)?;
    write_record(&mut out, actor, request)?;
    same_bytes(alloc, out.bytes(), record)
}

/// What stands at the front of bytes. A record is written again.
pub(crate) fn tell_record(alloc: Global, line: &mut Line, bytes: &[u8]) -> Result<(), CaseFault> {
    let mut request = Request::Exit;
    match next_record(alloc, bytes, &mut request)? {
        Next::Item { actor, used } => {
            line.number(u32::from(actor.number()));
            tell_request(line, &request);
            rewrite_record(alloc, actor, &request, bytes.get(..used).unwrap_or(bytes))
        }
        Next::Short => Ok(line.word("Short")),
        Next::Bad => Ok(line.word("Bad")),
        Next::End => Ok(line.word("End")),
    }
}

/// The entry that bytes begin with is read.
pub(crate) fn tell_entry(line: &mut Line, bytes: &[u8]) {
    line.shown(&read_entry(bytes));
}

/// The end record that bytes begin with is read.
pub(crate) fn tell_end(line: &mut Line, bytes: &[u8]) {
    line.shown(&read_end(bytes));
}

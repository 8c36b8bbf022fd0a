ghost use Rattle.std.specs.Prelude.{◌≡◌, ◌+◌, ◌≤◌, length};
ghost use Rattle.tbl_kinds.specs.Requests.{Fits};
ghost use Rattle.tbl_kinds.specs.Records as records;
ghost use Rattle.tbl_kinds.specs.Records.{body_of, body_limit};
ghost use Rattle.tbl_kinds.specs.declared.request.Request.TheVariants as ask;
ghost use Rattle.session_records.specs.Writing.{Appends, BeginsWithHandle, WritesRecord};

use crate::fields::NO_VALIDATOR;
use crate::head::HEAD_LEN;
use tbl_kinds::{Actor, Bytes, Memory, Request, ResetKind};

fn kind_of(request: &Request) -> u8
    ensures { result ≡ records.kind_of request.now }
{
    match request {
        Request::Command { .. } => 0x01,
        Request::File { .. } => 0x02,
        Request::Time { .. } => 0x03,
        Request::Reset { .. } => 0x04,
        Request::Start { .. } => 0x10,
        Request::Register { .. } => 0x11,
        Request::Share { .. } => 0x12,
        Request::Unregister { .. } => 0x13,
        Request::LoadImage { .. } => 0x14,
        Request::LoadFile { .. } => 0x15,
        Request::Update { .. } => 0x16,
        Request::Validate { .. } => 0x17,
        Request::Manage { .. } => 0x18,
        Request::DumpToBuffer { .. } => 0x19,
        Request::Edit { .. } => 0x1A,
        Request::Get { .. } => 0x1B,
        Request::Read { .. } => 0x1C,
        Request::Release { .. } => 0x1D,
        Request::GetStatus { .. } => 0x1E,
        Request::GetInfo { .. } => 0x1F,
        Request::Notify { .. } => 0x20,
        Request::Exit => 0x21,
        Request::CdsRegister { .. } => 0x30,
        Request::CdsCopy { .. } => 0x31,
        Request::CdsRestore { .. } => 0x32,
        Request::CdsDelete { .. } => 0x33,
    }
}

/// How many bytes the body of the request's record has. The record can be written where they are at most
/// [`BODY_LIMIT`](crate::BODY_LIMIT).
pub fn body_len(request: &Request) -> usize
    ensures { result ≡ length (body_of request.now) }
{
    match request {
        Request::Command { bytes } => bytes.bytes().len(),
        Request::File { file } => file.spelling().len(),
        Request::Time { .. } => 6,
        Request::Reset { .. } => 1,
        Request::Start { name } => name.field_len(),
        Request::Register { name, .. } => name.field_len() + 7,
        Request::Share { name } | Request::GetInfo { name } => name.field_len(),
        Request::LoadImage { image, .. } | Request::CdsCopy { image, .. } => {
            2 + image.bytes().len()
        }
        Request::LoadFile { name, .. } => 2 + name.name().field_len(),
        Request::Edit { bytes, .. } => 6 + bytes.bytes().len(),
        Request::Read { .. } | Request::Notify { .. } => 10,
        Request::Exit => 0,
        Request::CdsRegister { name, .. } => name.field_len() + 4,
        Request::Unregister { .. }
        | Request::Update { .. }
        | Request::Validate { .. }
        | Request::Manage { .. }
        | Request::DumpToBuffer { .. }
        | Request::Get { .. }
        | Request::Release { .. }
        | Request::GetStatus { .. }
        | Request::CdsRestore { .. }
        | Request::CdsDelete { .. } => 2,
    }
}

fn append_image(out: &mut Bytes, handle: u16, image: &Bytes)
    requires { 2 + length image.now.list ≤ out.old.spare }
    ensures { Appends (ask.LoadImage handle image.now) out.old out.new }
{
    out.append(&handle.to_be_bytes());
    out.append(image.bytes());
}

fn append_read(out: &mut Bytes, handle: u16, offset: u32, len: u32)
    requires { 10 ≤ out.old.spare }
    ensures { Appends (ask.Read handle offset len) out.old out.new }
{
    out.append(&handle.to_be_bytes());
    out.append(&offset.to_be_bytes());
    out.append(&len.to_be_bytes());
}

fn append_notify(out: &mut Bytes, handle: u16, msg: u16, code: u16, parameter: u32)
    requires { 10 ≤ out.old.spare }
    ensures { Appends (ask.Notify handle msg code parameter) out.old out.new }
{
    out.append(&handle.to_be_bytes());
    out.append(&msg.to_be_bytes());
    out.append(&code.to_be_bytes());
    out.append(&parameter.to_be_bytes());
}

/// The body of a request that begins with a handle, or with the slot of a block.
fn append_handle_body(out: &mut Bytes, request: &Request)
    requires handle { BeginsWithHandle request.now }
    requires room { length (body_of request.now) ≤ out.old.spare }
    ensures { Appends request.now out.old out.new }
{
    match request {
        Request::LoadImage { handle, image } => append_image(out, *handle, image),
        Request::CdsCopy { slot, image } => append_image(out, *slot, image),
        Request::LoadFile { handle, name } => {
            out.append(&handle.to_be_bytes());
            name.name().append_field(out);
        }
        Request::Edit {
            handle,
            offset,
            bytes,
        } => {
            out.append(&handle.to_be_bytes());
            out.append(&offset.to_be_bytes());
            out.append(bytes.bytes());
        }
        Request::Read {
            handle,
            offset,
            len,
        } => append_read(out, *handle, *offset, *len),
        Request::Notify {
            handle,
            msg,
            code,
            parameter,
        } => append_notify(out, *handle, *msg, *code, *parameter),
        Request::Unregister { handle }
        | Request::Update { handle }
        | Request::Validate { handle }
        | Request::Manage { handle }
        | Request::DumpToBuffer { handle }
        | Request::Get { handle }
        | Request::Release { handle }
        | Request::GetStatus { handle } => out.append(&handle.to_be_bytes()),
        Request::CdsRestore { slot } | Request::CdsDelete { slot } => {
            out.append(&slot.to_be_bytes());
        }
        _ => unreachable!(),
    }
}

fn append_body(out: &mut Bytes, request: &Request)
    requires { length (body_of request.now) ≤ out.old.spare }
    ensures { Appends request.now out.old out.new }
{
    match request {
        Request::Command { bytes } => out.append(bytes.bytes()),
        Request::File { file } => out.append(file.spelling()),
        Request::Time { seconds, sub } => {
            out.append(&seconds.to_be_bytes());
            out.append(&sub.to_be_bytes());
        }
        Request::Reset {
            kind: ResetKind::Processor,
        } => out.append(&[1]),
        Request::Reset {
            kind: ResetKind::PowerOn,
        } => out.append(&[2]),
        Request::Start { name } => name.append_field(out),
        Request::Register {
            name,
            size,
            flags,
            validator,
        } => {
            name.append_field(out);
            out.append(&size.to_be_bytes());
            out.append(&flags.to_be_bytes());
            out.append(&[validator.unwrap_or(NO_VALIDATOR)]);
        }
        Request::Share { name } | Request::GetInfo { name } => name.append_field(out),
        Request::Exit => {}
        Request::CdsRegister { name, size } => {
            name.append_field(out);
            out.append(&size.to_be_bytes());
        }
        _ => append_handle_body(out, request),
    }
}

/// Puts the record's one spelling after the bytes. Where memory runs out, nothing is changed.
#[tactic(auto, unfolding(tbl_kinds::specs::Records::spelling))]
pub fn write_record(out: &mut Bytes, actor: Actor, request: &Request) -> Result<(), Memory>
    requires fits { Fits actor request.now }
    requires within { length (body_of request.now) ≤ body_limit }
    ensures { WritesRecord (record { actor = actor; request = request.now }) out.old out.new result }
{
    let len = body_len(request);
    let [high, low] = (len as u16).to_be_bytes();
    out.reserve(HEAD_LEN + len)?;
    out.append(&[kind_of(request), actor.number(), high, low]);
    append_body(out, request);
    Ok(())
}

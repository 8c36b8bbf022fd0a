//! Records whose body is numbers, or bytes that the request keeps.

ghost use Rattle.std.specs.Prelude.{◌≡◌, ◌≤◌, length};
ghost use Rattle.session_records.specs.Reading.{IsReadAs, IsReadOr, HasBody, number_kinds, bytes_kinds};

use crate::fields::{read_four, read_two};
use crate::head::{Head, made};
use std::alloc::Global;
use tbl_kinds::{Bytes, FILE_NAME_LENGTH, FileName, Memory, Name, Request, ResetKind, Uplink};

#[tactic(auto, unfolding(tbl_kinds::specs::Heads::is_right_body))]
fn notify(body: &[u8], request: &mut Request) -> bool
    requires { length body.now ≡ 10 }
    ensures { IsReadAs 0x20 body.now request.new result }
{
    let (handle, rest) = read_two(body);
    let (msg, rest) = read_two(rest);
    let (code, rest) = read_two(rest);
    let (parameter, _) = read_four(rest);
    made!(
        request,
        Request::Notify {
            handle,
            msg,
            code,
            parameter
        }
    )
}

/// The request of a kind whose body is numbers alone, if it has some, but for a handle alone.
#[inline(never)]
#[tactic(auto, unfolding(tbl_kinds::specs::Heads::is_right_body, tbl_kinds::specs::Heads::is_good_head))]
pub(crate) fn number_request(head: Head, body: &[u8], request: &mut Request) -> bool
    requires { HasBody number_kinds head body.now }
    ensures { IsReadAs head.kind body.now request.new result }
{
    match head.kind {
        0x03 => {
            let (seconds, rest) = read_four(body);
            let (sub, _) = read_two(rest);
            made!(request, Request::Time { seconds, sub })
        }
        0x04 => {
            let kind = match body[0] {
                1 => ResetKind::Processor,
                2 => ResetKind::PowerOn,
                _ => return false,
            };
            made!(request, Request::Reset { kind })
        }
        0x1C => {
            let (handle, rest) = read_two(body);
            let (offset, rest) = read_four(rest);
            let (len, _) = read_four(rest);
            made!(
                request,
                Request::Read {
                    handle,
                    offset,
                    len
                }
            )
        }
        0x20 => notify(body, request),
        0x21 => made!(request, Request::Exit),
        _ => unreachable!(),
    }
}

#[tactic(auto, unfolding(tbl_kinds::specs::Heads::is_right_body))]
fn file(alloc: Global, body: &[u8], request: &mut Request) -> Result<bool, Memory>
    requires { 64 ≤ length body.now }
    ensures { IsReadOr 0x02 body.now request.new result }
{
    let (field, _) = body.split_at(FILE_NAME_LENGTH);
    let Some(_name) = Name::<64>::exact(field) else {
        return Ok(false);
    };
    let file = Uplink::of(Bytes::of(alloc, body)?);
    Ok(made!(request, Request::File { file }))
}

/// The request of a kind that keeps bytes of the body, or a long name.
#[inline(never)]
#[tactic(auto, unfolding(tbl_kinds::specs::Heads::is_right_body, tbl_kinds::specs::Heads::is_good_head))]
pub(crate) fn bytes_request(
    alloc: Global,
    head: Head,
    body: &[u8],
    request: &mut Request,
) -> Result<bool, Memory>
    requires { HasBody bytes_kinds head body.now }
    ensures { IsReadOr head.kind body.now request.new result }
{
    match head.kind {
        0x01 => {
            let bytes = Bytes::of(alloc, body)?;
            Ok(made!(request, Request::Command { bytes }))
        }
        0x02 => file(alloc, body, request),
        0x14 => {
            let (handle, rest) = read_two(body);
            let image = Bytes::of(alloc, rest)?;
            Ok(made!(request, Request::LoadImage { handle, image }))
        }
        0x15 => {
            let (handle, field) = read_two(body);
            let Some(name) = Name::<64>::exact(field) else {
                return Ok(false);
            };
            let name = FileName::of(alloc, name)?;
            Ok(made!(request, Request::LoadFile { handle, name }))
        }
        0x1A => {
            let (handle, rest) = read_two(body);
            let (offset, rest) = read_four(rest);
            let bytes = Bytes::of(alloc, rest)?;
            Ok(made!(
                request,
                Request::Edit {
                    handle,
                    offset,
                    bytes
                }
            ))
        }
        0x31 => {
            let (slot, rest) = read_two(body);
            let image = Bytes::of(alloc, rest)?;
            Ok(made!(request, Request::CdsCopy { slot, image }))
        }
        _ => unreachable!(),
    }
}

//! The record at the front of an input.

ghost use Rattle.std.specs.Prelude.{length, IsTrue};
ghost use Rattle.tbl_kinds.specs.Heads.{is_good_head};
ghost use Rattle.session_records.specs.Reading.{IsReadOr, Reads};

use crate::calls::{handle_request, named_request};
use crate::head::{HEAD_LEN, Head, actor_of};
use crate::plain::{bytes_request, number_request};
use std::alloc::Global;
use tbl_kinds::{Actor, Memory, Request};

/// What stands at the front of an input.
#[derive(Clone, Copy, PartialEq, Eq)]
pub enum Next {
    /// A record of so many bytes, by this actor.
    Item { actor: Actor, used: usize },
    /// A part of a record. More bytes may make it whole.
    Short,
    /// No record, whatever follows.
    Bad,
    /// Nothing.
    End,
}

/// The request of this head and body, if the body is of the right form.
#[tactic(auto, unfolding(tbl_kinds::specs::Heads::is_right_body, tbl_kinds::specs::Heads::is_good_head))]
fn request_of(alloc: Global, head: Head, body: &[u8], request: &mut Request) -> Result<bool, Memory>
    requires { IsTrue (is_good_head head.kind head.actor (length body.now)) }
    ensures { IsReadOr head.kind body.now request.new result }
{
    match head.kind {
        0x01 | 0x02 | 0x14 | 0x15 | 0x1A | 0x31 => bytes_request(alloc, head, body, request),
        0x03 | 0x04 | 0x1C | 0x20 | 0x21 => Ok(number_request(head, body, request)),
        0x10 | 0x11 | 0x12 | 0x1F | 0x30 => Ok(named_request(head, body, request)),
        0x13 | 0x16 | 0x17 | 0x18 | 0x19 | 0x1B | 0x1D | 0x1E | 0x32 | 0x33 => {
            Ok(handle_request(head, body, request))
        }
        _ => Ok(false),
    }
}

/// What stands at the front of the bytes. A record's request is put into the place that the caller has for it; where there is no
/// record, what is in that place means nothing. Memory is taken for a whole record alone.
#[tactic(auto, unfolding(tbl_kinds::specs::Heads::is_short, tbl_kinds::specs::Heads::is_bad))]
pub fn next_record(alloc: Global, bytes: &[u8], request: &mut Request) -> Result<Next, Memory>
    ensures { Reads bytes.now request.new result }
{
    if bytes.is_empty() {
        return Ok(Next::End);
    }
    if bytes.len() < HEAD_LEN {
        return Ok(Next::Short);
    }
    let head = Head::of(bytes);
    let (_, rest) = bytes.split_at(HEAD_LEN);
    if !head.is_good() {
        return Ok(Next::Bad);
    }
    if rest.len() < head.len {
        return Ok(Next::Short);
    }
    let (body, _) = rest.split_at(head.len);
    if !request_of(alloc, head, body, request)? {
        return Ok(Next::Bad);
    }
    Ok(Next::Item {
        actor: actor_of(head.actor),
        used: HEAD_LEN + head.len,
    })
}

//! Records of what applications call.

ghost use Rattle.std.specs.Prelude.{◌≡◌, length};
ghost use Rattle.tbl_kinds.specs.Numbers.{two};
ghost use Rattle.session_records.specs.Reading.{IsReadAs, HasBody, named_kinds, handle_kinds};

use crate::fields::{read_four, read_two, read_validator};
use crate::head::{Head, made};
use tbl_kinds::{Name, Request};

#[tactic(auto, unfolding(tbl_kinds::specs::Heads::is_right_body))]
fn register(body: &[u8], request: &mut Request) -> bool
    requires { length body.now ≡ 23 }
    ensures { IsReadAs 0x11 body.now request.new result }
{
    let (field, rest) = body.split_at(16);
    let Some(name) = Name::<16>::exact(field) else {
        return false;
    };
    let (size, rest) = read_four(rest);
    let (flags, rest) = read_two(rest);
    let validator = read_validator(rest);
    made!(
        request,
        Request::Register {
            name,
            size,
            flags,
            validator
        }
    )
}

/// The request of a kind whose body begins with a name. It isn't inlined, like those of the other kinds: its arms would clear their memory
/// for each record of another kind.
#[inline(never)]
#[tactic(auto, unfolding(tbl_kinds::specs::Heads::is_right_body, tbl_kinds::specs::Heads::is_good_head))]
pub(crate) fn named_request(head: Head, body: &[u8], request: &mut Request) -> bool
    requires { HasBody named_kinds head body.now }
    ensures { IsReadAs head.kind body.now request.new result }
{
    match head.kind {
        0x10 => {
            let Some(name) = Name::<20>::exact(body) else {
                return false;
            };
            made!(request, Request::Start { name })
        }
        0x11 => register(body, request),
        0x12 => {
            let Some(name) = Name::<40>::exact(body) else {
                return false;
            };
            made!(request, Request::Share { name })
        }
        0x1F => {
            let Some(name) = Name::<40>::exact(body) else {
                return false;
            };
            made!(request, Request::GetInfo { name })
        }
        0x30 => {
            let (field, rest) = body.split_at(16);
            let Some(name) = Name::<16>::exact(field) else {
                return false;
            };
            let (size, _) = read_four(rest);
            made!(request, Request::CdsRegister { name, size })
        }
        _ => unreachable!(),
    }
}

/// The handle or the slot that a body of two bytes is.
fn handle_in(body: &[u8]) -> u16
    requires { length body.now ≡ 2 }
    ensures { body.now ≡ two result }
{
    let (handle, _) = read_two(body);
    handle
}

/// The request of a kind whose body is a handle alone, or the slot of a block.
#[inline(never)]
#[tactic(auto, using(crate::proofs::Spelled::handle_len), unfolding(tbl_kinds::specs::Heads::is_right_body))]
pub(crate) fn handle_request(head: Head, body: &[u8], request: &mut Request) -> bool
    requires { HasBody handle_kinds head body.now }
    ensures { IsReadAs head.kind body.now request.new result }
{
    let handle = handle_in(body);
    *request = match head.kind {
        0x13 => Request::Unregister { handle },
        0x16 => Request::Update { handle },
        0x17 => Request::Validate { handle },
        0x18 => Request::Manage { handle },
        0x19 => Request::DumpToBuffer { handle },
        0x1B => Request::Get { handle },
        0x1D => Request::Release { handle },
        0x1E => Request::GetStatus { handle },
        0x32 => Request::CdsRestore { slot: handle },
        0x33 => Request::CdsDelete { slot: handle },
        _ => unreachable!(),
    };
    true
}

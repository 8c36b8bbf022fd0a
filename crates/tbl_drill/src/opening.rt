//! The records that a drill begins with.

ghost use Rattle.std.specs.Prelude.{◌≡◌, ◌<◌, ◌≤◌, Some, length, slice_get};
ghost use Rattle.tbl_kinds.specs.Names.{name_in};
ghost use Rattle.tbl_kinds.specs.declared.request.Request.TheVariants as ask;
ghost use Rattle.tbl_drill.specs.Drill.{opening, size};
ghost use Rattle.std.specs.Prelude.{None};

use crate::record::{Record, app, ground};
use tbl_kinds::{Name, Request, ResetKind};

/// How many records come before the first round.
pub(crate) const OPENING_LEN: u8 = 9;

/// How many bytes each table has.
pub(crate) const TABLE_SIZE: u32 = 64;

fn start(name: &[u8]) -> Request
    requires { length name.now ≤ 20 }
    ensures { result ≡ ask.Start (name_in name.now) }
{
    Request::Start {
        name: Name::of(name),
    }
}

fn register(name: &[u8], flags: u16) -> Request
    requires { length name.now ≤ 16 }
    ensures { result ≡ ask.Register (name_in name.now) size flags None }
{
    Request::Register {
        name: Name::of(name),
        size: TABLE_SIZE,
        flags,
        validator: None,
    }
}

fn share(name: &[u8]) -> Request
    requires { length name.now ≤ 40 }
    ensures { result ≡ ask.Share (name_in name.now) }
{
    Request::Share {
        name: Name::of(name),
    }
}

/// The record at a place of the opening: a reset, two applications that start, three tables of 64 bytes that the first one
/// registers (with one buffer, with two, and critical), and that the second one shares.
pub(crate) fn opening_record(place: u8) -> Record
    requires { place < 9 }
    ensures { slice_get opening place ≡ Some result }
{
    match place {
        0 => ground(Request::Reset {
            kind: ResetKind::PowerOn,
        }),
        1 => app(1, start(b"D1")),
        2 => app(2, start(b"D2")),
        3 => app(1, register(b"S", 0x0000)),
        4 => app(1, register(b"D", 0x0001)),
        5 => app(1, register(b"C", 0x0008)),
        6 => app(2, share(b"D1.S")),
        7 => app(2, share(b"D1.D")),
        _ => app(2, share(b"D1.C")),
    }
}

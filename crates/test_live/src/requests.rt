//! The requests of the rows.

ghost use Rattle.std.specs.Prelude.{IfOk};
ghost use Rattle.tbl_kinds.specs.Requests.{Fits};
ghost use Rattle.tbl_kinds.specs.declared.request.Actor.TheVariants.{Ground};
ghost use Rattle.test_live.specs.Applications.{IsFromApps};

use std::alloc::Global;
use tbl_kinds::{Memory, Name16, Name20, Name40, Request};
use test_tables::kept;

/// How many bytes the table of the rows has.
const SIZE: usize = 8;

/// The image of the table.
pub(crate) const IMAGE: [u8; SIZE] = [7; SIZE];

/// The option of a table with two buffers.
const DOUBLE_BUFFERED: u16 = 0x0001;

/// The packet of a NOOP.
const NOOP: [u8; 8] = [0x18, 0x04, 0xC0, 0x00, 0x00, 0x01, 0x00, 0x22];

/// How many bytes a table has that is read through a pin.
pub(crate) const LARGE: usize = 16_384;

/// The byte of which the image of that table is made.
pub(crate) const FILL: u8 = 0x5A;

/// The ground sends a NOOP.
pub(crate) fn noop(alloc: Global) -> Result<Request, Memory>
    ensures { IfOk result (Fits Ground) }
{
    Ok(Request::Command {
        bytes: kept(alloc, &NOOP)?,
    })
}

/// An application starts under the name `A`.
pub(crate) fn start() -> Request
    ensures { IsFromApps result }
{
    let mut field = [0; 20];
    field[0] = b'A';
    Request::Start {
        name: Name20::of(&field),
    }
}

/// An application asks for the registry record of the table `A.T`.
pub(crate) fn get_info() -> Request
    ensures { IsFromApps result }
{
    let mut field = [0; 40];
    field[..3].copy_from_slice(b"A.T");
    Request::GetInfo {
        name: Name40::of(&field),
    }
}

/// An application registers a table `T` with two buffers, whose handle is 0.
pub(crate) fn register() -> Request
    ensures { IsFromApps result }
{
    Request::Register {
        name: Name16::of(b"T"),
        size: SIZE as u32,
        flags: DOUBLE_BUFFERED,
        validator: None,
    }
}

/// It loads an image.
pub(crate) fn load(alloc: Global) -> Result<Request, Memory>
    ensures { IfOk result IsFromApps }
{
    Ok(Request::LoadImage {
        handle: 0,
        image: kept(alloc, &IMAGE)?,
    })
}

/// It gets the address of the image.
pub(crate) fn get() -> Request
    ensures { IsFromApps result }
{
    Request::Get { handle: 0 }
}

/// It reads the whole image.
pub(crate) fn read() -> Request
    ensures { IsFromApps result }
{
    Request::Read {
        handle: 0,
        offset: 0,
        len: SIZE as u32,
    }
}

/// It gives the address back.
pub(crate) fn release() -> Request
    ensures { IsFromApps result }
{
    Request::Release { handle: 0 }
}

/// An application starts under a name of its own, by a number below 17.
pub(crate) fn start_as(number: u8) -> Request
    ensures { IsFromApps result }
{
    let mut field = [0; 20];
    field[0] = b'B'.saturating_add(number);
    Request::Start {
        name: Name20::of(&field),
    }
}

/// An application registers a large table with one buffer.
pub(crate) fn register_large() -> Request
    ensures { IsFromApps result }
{
    Request::Register {
        name: Name16::of(b"L"),
        size: LARGE as u32,
        flags: 0,
        validator: None,
    }
}

/// It loads an image into it.
pub(crate) fn load_large(alloc: Global, handle: u16) -> Result<Request, Memory>
    ensures { IfOk result IsFromApps }
{
    Ok(Request::LoadImage {
        handle,
        image: kept(alloc, &[FILL; LARGE])?,
    })
}

/// It gets the address of the image by a handle.
pub(crate) fn get_by(handle: u16) -> Request
    ensures { IsFromApps result }
{
    Request::Get { handle }
}

//! Images that are lent.

ghost use Rattle.std.specs.Prelude.{◌≡◌, IfOk};

use buffer_pairs::Image;
use std::alloc::Global;
use tbl_kinds::{Bytes, Memory, Name40};

/// An image that a handle pinned, lent by the registry. It owns the bytes together with the table. Nobody changes them while it lives, also
/// if the handle has given its pin back since. It can be read in any thread, without the registry.
#[derive(Drop)]
pub struct Pin {
    bytes: Image,
    handle: u16,
    place: u64,
    name: Name40,
}

impl Pin {
    /// The image of the table of this name, lent by a handle that pinned it at this place of the history.
    pub(crate) fn of(bytes: Image, handle: u16, place: u64, name: Name40) -> Pin
        ensures { result ≡ record { bytes = bytes; handle = handle; place = place; name = name } }
    {
        Pin {
            bytes,
            handle,
            place,
            name,
        }
    }

    /// The bytes of the image.
    pub fn bytes(&self) -> &[u8]
        ensures { result.now ≡ self.now.bytes }
    {
        self.bytes.bytes()
    }

    /// The bytes of the image once more, in the same memory. It copies none and takes no memory, and fails only if they have as many owners
    /// as can be counted.
    pub fn bytes_again(&self, alloc: Global) -> Result<Bytes, Memory>
        ensures { IfOk result (λ bytes. bytes.list ≡ self.now.bytes) }
    {
        Ok(Bytes::from_shared(alloc, self.bytes.shared()?))
    }

    /// The handle that pinned it.
    pub fn handle(&self) -> u16
        ensures { result ≡ self.now.handle }
    {
        self.handle
    }

    /// The place in the history of the call that got the address (`CFE_TBL_GetAddress`).
    pub fn place(&self) -> u64
        ensures { result ≡ self.now.place }
    {
        self.place
    }

    /// The full name of the table whose image it is: application, dot, short name (cFE User's Guide, Table Services).
    pub fn name(&self) -> &Name40
        ensures { result.now ≡ self.now.name }
    {
        &self.name
    }
}

//! Numbers in bytes, the high byte first.

ghost use Rattle.std.specs.Prelude.{◌≡◌, ◌+◌, ◌≤◌, length};
ghost use Rattle.tbl_kinds.specs.Numbers.{two_at, four_at};

use byteorder::{BigEndian, ByteOrder};

/// The number in the two bytes at a place.
pub fn u16_at(bytes: &[u8], place: usize) -> u16
    requires { place + 2 ≤ length bytes.now }
    ensures { result ≡ two_at place bytes.now }
{
    BigEndian::read_u16(&bytes[place..])
}

/// The number in the four bytes at a place.
pub fn u32_at(bytes: &[u8], place: usize) -> u32
    requires { place + 4 ≤ length bytes.now }
    ensures { result ≡ four_at place bytes.now }
{
    BigEndian::read_u32(&bytes[place..])
}

ghost use Rattle.std.specs.Prelude.{◌≡◌, ◌≤◌, ◌++◌, length};
ghost use Rattle.tbl_kinds.specs.Numbers.{two, four};
ghost use Rattle.session_records.specs.Reading.{IsValidator};

use tbl_kinds::{u16_at, u32_at};

/// What spells that there is no validator.
pub const NO_VALIDATOR: u8 = 0xFF;

/// The number in the first two bytes, and the bytes after them.
pub fn read_two(bytes: &[u8]) -> (u16, &[u8])
    requires { 2 ≤ length bytes.now }
    ensures { bytes.now ≡ two result.0 ++ result.1.now }
{
    let number = u16_at(bytes, 0);
    let (_, rest) = bytes.split_at(2);
    (number, rest)
}

/// The number in the first four bytes, and the bytes after them.
pub fn read_four(bytes: &[u8]) -> (u32, &[u8])
    requires { 4 ≤ length bytes.now }
    ensures { bytes.now ≡ four result.0 ++ result.1.now }
{
    let number = u32_at(bytes, 0);
    let (_, rest) = bytes.split_at(4);
    (number, rest)
}

/// The validator's number in the last byte of a body.
pub fn read_validator(bytes: &[u8]) -> Option<u8>
    requires { length bytes.now ≡ 1 }
    ensures { IsValidator bytes.now result }
{
    match bytes[0] {
        NO_VALIDATOR => None,
        number => Some(number),
    }
}

//! Numbers as decimal digits, and as big-endian bytes, for all types.

ghost use Rattle.std.specs.Prelude.{◌≡◌, ◌<◌, ◌↔◌, length, pos, ◌≤ℤ◌, ◌<ℤ◌, IsTrue, IfSome, IfNone};
ghost use Rattle.std.specs.Int.{to_be_bytes, byte_len};
ghost use Rattle.std.specs.Fmt.{decimal, signed_decimal};
ghost use Rattle.tbl_maker.specs.Types.{width_of, modulus_of};
ghost use Rattle.tbl_maker.specs.Values.{IsInRange};
ghost use Rattle.tbl_maker.specs.Parts.{AreBitsIn, AreBitsOf, IsNoCount, IsNoNumber, IsNoNumberOf, IsNumberIn, ReadsNumber};

use crate::field_type::{Sign, Width};
use crate::value::ValueBytes;
use arrayvec::ArrayVec;
use itoa::Buffer;
use tbl_kinds::{u16_at, u32_at};

/// The number whose decimal digits the text is, in the one way in which it is written.
pub(crate) fn number_in(text: &[u8]) -> Option<i64>
    ensures some { IfSome result (λ z. text.now ≡ signed_decimal z) }
    ensures none { IfNone result (IsNoNumber text.now) }
{
    let number = str::from_utf8(text).ok()?.parse::<i64>().ok()?;
    let mut buffer = Buffer::new();
    if buffer.format(number).as_bytes() == text {
        Some(number)
    } else {
        None
    }
}

/// Whether the number is one from 0 to below the limit.
fn is_below(number: i64, limit: u32) -> bool
    ensures { IsTrue result ↔ ((pos 0 ≤ℤ number) × (number <ℤ pos limit)) }
{
    0 <= number && number < i64::from(limit)
}

/// The number below the limit whose decimal digits the text is.
pub(crate) fn count_in(text: &[u8], limit: u32) -> Option<u32>
    ensures some { IfSome result (λ n. text.now ≡ decimal n) }
    ensures below { IfSome result (λ n. n < limit) }
    ensures none { IfNone result (IsNoCount text.now limit) }
{
    let number = number_in(text)?;
    if !is_below(number, limit) {
        return None;
    }
    Some(number as u32)
}

fn is_in_range(sign: Sign, width: Width, number: i64) -> bool
    ensures { IsTrue result ↔ IsInRange sign width number }
{
    let modulus = width.modulus();
    match sign {
        Sign::Unsigned => 0 <= number && number < modulus,
        Sign::Signed => -(modulus / 2) <= number && number < modulus / 2,
    }
}

/// The number in two's complement, where it is negative.
fn bits_of(sign: Sign, width: Width, number: i64) -> u32
    requires { IsInRange sign width number }
    ensures { AreBitsOf width number result }
{
    let modulus = width.modulus();
    let bits = if number < 0 { number + modulus } else { number };
    bits as u32
}

fn bytes_of(width: Width, bits: u32) -> ValueBytes
    requires { bits < modulus_of width }
    ensures { result.items ≡ to_be_bytes (width_of width) bits }
{
    let mut bytes = ArrayVec::new();
    let _ = match width {
        Width::One => bytes.try_extend_from_slice(&(bits as u8).to_be_bytes()),
        Width::Two => bytes.try_extend_from_slice(&(bits as u16).to_be_bytes()),
        Width::Four => bytes.try_extend_from_slice(&bits.to_be_bytes()),
    };
    bytes
}

/// The bytes of the number of this type whose text this is.
pub(crate) fn number_bytes(sign: Sign, width: Width, text: &[u8]) -> Option<ValueBytes>
    ensures some { IfSome result (λ bytes. ReadsNumber sign width text.now bytes.items) }
    ensures none { IfNone result (IsNoNumberOf sign width text.now) }
{
    let number = number_in(text)?;
    if !is_in_range(sign, width, number) {
        return None;
    }
    Some(bytes_of(width, bits_of(sign, width, number)))
}

fn bits_in(width: Width, bytes: &[u8]) -> u32
    requires { length bytes.now ≡ byte_len (width_of width) }
    ensures { AreBitsIn width bytes.now result }
{
    match width {
        Width::One => u32::from(bytes[0]),
        Width::Two => u32::from(u16_at(bytes, 0)),
        Width::Four => u32_at(bytes, 0),
    }
}

/// The number of this type that has these bytes.
pub(crate) fn number_of(sign: Sign, width: Width, bytes: &[u8]) -> i64
    requires { length bytes.now ≡ byte_len (width_of width) }
    ensures { IsNumberIn sign width bytes.now result }
{
    let modulus = width.modulus();
    let bits = i64::from(bits_in(width, bytes));
    match sign {
        Sign::Signed if bits >= modulus / 2 => bits - modulus,
        _ => bits,
    }
}

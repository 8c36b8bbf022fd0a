//! The values of fields as text and as bytes.

ghost use Rattle.std.specs.Prelude.{◌≡◌, ◌+◌, ◌*◌, ◌<◌, [], ◌∷◌, ◌++◌, length, IfSome, IfNone, OnOk, true};
ghost use Rattle.std.specs.Fmt.{signed_decimal, digit_glyph};
ghost use Rattle.std.specs.List.{flat_map};
ghost use Rattle.tbl_maker.specs.Types.{size_of};
ghost use Rattle.tbl_maker.specs.Values.{hex_pair};
ghost use Rattle.tbl_maker.specs.Shapes.{is_type};
ghost use Rattle.tbl_maker.specs.Parts.{ReadsHex, IsNoHex, ReadsValue, IsNoValue, PutsValue};
ghost use Rattle.tbl_maker.specs.Digits.{FindsDigit};

use crate::field_type::{FieldType, number_type};
use crate::number::{number_bytes, number_of};
use arrayvec::ArrayVec;
use itoa::Buffer;
use plain_text::append_text;
use tbl_kinds::{Bytes, Memory};

/// The bytes of a field's value, at most 64.
pub(crate) type ValueBytes = ArrayVec<u8, 64>;

/// What a hexadecimal digit stands for; None for other bytes, small letters among them.
fn digit_in(byte: u8) -> Option<u8>
    ensures { FindsDigit byte result }
{
    match byte {
        b'0'..=b'9' => Some(byte - b'0'),
        b'A'..=b'F' => Some(byte - b'A' + 10),
        _ => None,
    }
}

/// The bytes whose hexadecimal digits the text is.
fn hex_bytes(text: &[u8]) -> Option<ValueBytes>
    ensures some { IfSome result (λ bytes. ReadsHex text.now bytes.items) }
    ensures none { IfNone result (IsNoHex text.now) }
{
    let mut bytes = ArrayVec::new();
    let mut rest = text;
    while let [high, low, others @ ..] = rest {
        let byte = digit_in(*high)? * 16 + digit_in(*low)?;
        if bytes.try_push(byte).is_err() {
            return None;
        }
        rest = others;
    }
    if !rest.is_empty() {
        return None;
    }
    if bytes.is_empty() {
        return None;
    }
    Some(bytes)
}

/// The bytes of the value whose text this is, of the type that has this word.
pub(crate) fn value_bytes(word: &[u8], text: &[u8]) -> Option<ValueBytes>
    ensures some { IfSome result (λ bytes. ReadsValue word.now text.now bytes.items) }
    ensures none { IfNone result (IsNoValue word.now text.now) }
{
    if word == b"hex".as_slice() {
        return hex_bytes(text);
    }
    let (sign, width) = number_type(word)?;
    number_bytes(sign, width, text)
}

/// Appends the decimal digits of a number.
pub(crate) fn put_number(out: &mut Bytes, number: i64) -> Result<(), Memory>
    ensures { OnOk result (out.new.list ≡ out.old.list ++ signed_decimal number) }
{
    let mut buffer = Buffer::new();
    append_text(out, buffer.format(number).as_bytes())
}

fn digit_of(nibble: u8) -> u8
    requires { nibble < 16 }
    ensures { result ≡ digit_glyph true nibble }
{
    if nibble < 10 {
        b'0' + nibble
    } else {
        b'A' - 10 + nibble
    }
}

fn put_hex(out: &mut Bytes, bytes: &[u8]) -> Result<(), Memory>
    ensures { OnOk result (out.new.list ≡ out.old.list ++ flat_map hex_pair bytes.now) }
{
    for byte in bytes {
        append_text(out, &[digit_of(*byte / 16), digit_of(*byte % 16)])?;
    }
    Ok(())
}

/// Appends the text of the value of this type that has these bytes.
pub(crate) fn put_value(out: &mut Bytes, kind: FieldType, bytes: &[u8]) -> Result<(), Memory>
    requires kind { is_type kind ≡ true }
    requires len { length bytes.now ≡ size_of kind }
    ensures { OnOk result (PutsValue kind bytes.now out.old.list out.new.list) }
{
    match kind {
        FieldType::Number { sign, width } => put_number(out, number_of(sign, width, bytes)),
        FieldType::Hex { .. } => put_hex(out, bytes),
    }
}

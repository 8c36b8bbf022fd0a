//! The names of tables and of their fields.

ghost use Rattle.std.specs.Prelude.{◌≡◌};
ghost use Rattle.std.specs.List.{list_all, before_first, after_first};
ghost use Rattle.tbl_kinds.specs.Names.{is_printable_byte};
ghost use Rattle.tbl_maker.specs.Names.{is_name_within, is_full_name, is_field_byte, is_field_name};

use crate::splitting::split_at_byte;

/// The most bytes of an application's name.
const MOST_APP: usize = 20;

/// The most bytes of a table's short name, and of a field's name.
const MOST_SHORT: usize = 16;

fn is_printable(byte: u8) -> bool
    ensures { result ≡ is_printable_byte byte }
{
    0x21 <= byte && byte <= 0x7e
}

fn are_printable(bytes: &[u8]) -> bool
    ensures { result ≡ list_all is_printable_byte bytes.now }
{
    bytes.iter().all(|byte| is_printable(*byte))
}

fn is_name_within(bytes: &[u8], most: usize) -> bool
    ensures { result ≡ is_name_within most bytes.now }
{
    !bytes.is_empty() && are_printable(bytes) && bytes.len() <= most
}

/// Whether the bytes are an application's name, a dot and a table's short name.
pub(crate) fn is_full_name(bytes: &[u8]) -> bool
    ensures { result ≡ is_full_name bytes.now }
{
    match split_at_byte(bytes, b'.') {
        Some((app, short)) => is_name_within(app, MOST_APP) && is_name_within(short, MOST_SHORT),
        None => false,
    }
}

fn is_field_byte(byte: u8) -> bool
    ensures { result ≡ is_field_byte byte }
{
    (b'a' <= byte && byte <= b'z') || (b'0' <= byte && byte <= b'9') || byte == b'_'
}

fn are_field_bytes(bytes: &[u8]) -> bool
    ensures { result ≡ list_all is_field_byte bytes.now }
{
    bytes.iter().all(|byte| is_field_byte(*byte))
}

/// Whether the bytes are the name of a field: 1 to 16 of a to z, 0 to 9 and the underscore.
pub(crate) fn is_field_name(bytes: &[u8]) -> bool
    ensures { result ≡ is_field_name bytes.now }
{
    !bytes.is_empty() && bytes.len() <= MOST_SHORT && are_field_bytes(bytes)
}

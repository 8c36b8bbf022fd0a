//! A field's line, read and written.

ghost use Rattle.std.specs.Prelude.{◌≡◌, ◌+◌, ◌∷◌, ◌++◌, length, IfSome, IfNone, OnOk, true};
ghost use Rattle.tbl_maker.specs.Types.{type_word};
ghost use Rattle.tbl_maker.specs.Shapes.{is_form, form_size};
ghost use Rattle.tbl_maker.specs.Parts.{ReadsField, IsNoField, PutsField};

use crate::field_type::FieldType;
use crate::form::Form;
use crate::names::is_field_name;
use crate::splitting::split_at_byte;
use crate::value::{ValueBytes, put_value, value_bytes};
use plain_text::append_text;
use tbl_kinds::{Bytes, Memory};

/// The bytes of the value of the field whose line this is.
pub(crate) fn field_bytes(line: &[u8]) -> Option<ValueBytes>
    ensures some { IfSome result (λ bytes. ReadsField line.now bytes.items) }
    ensures none { IfNone result (IsNoField line.now) }
{
    let (word, rest) = split_at_byte(line, b' ')?;
    let (name, text) = split_at_byte(rest, b' ')?;
    if !is_field_name(name) {
        return None;
    }
    value_bytes(word, text)
}

fn put_type(out: &mut Bytes, kind: FieldType) -> Result<(), Memory>
    ensures { OnOk result (out.new.list ≡ out.old.list ++ type_word kind) }
{
    match kind {
        FieldType::Number { sign, width } => {
            append_text(out, &[sign.letter()])?;
            append_text(out, width.digits())
        }
        FieldType::Hex { .. } => append_text(out, b"hex"),
    }
}

/// Appends the line of the field of this form that has these bytes.
pub(crate) fn put_field(out: &mut Bytes, form: &Form, bytes: &[u8]) -> Result<(), Memory>
    requires form { is_form form.now ≡ true }
    requires len { length bytes.now ≡ form_size form.now }
    ensures { OnOk result (PutsField form.now bytes.now out.old.list out.new.list) }
{
    put_type(out, form.kind)?;
    append_text(out, b" ")?;
    append_text(out, form.name.bytes())?;
    append_text(out, b" ")?;
    put_value(out, form.kind, bytes)?;
    append_text(out, b"\n")
}

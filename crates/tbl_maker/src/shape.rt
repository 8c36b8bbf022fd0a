//! Shapes: the types and the names of a table's fields.

ghost use Rattle.std.specs.Prelude.{◌≡◌, ◌+◌, ◌≤◌, ◌∷◌, ◌++◌, [], List, length, IfSome, IfNone, IfOk, OnOk, true};
ghost use Rattle.tbl_kinds.specs.Limits.{table_limit};
ghost use Rattle.tbl_maker.specs.Types.{sized_word};
ghost use Rattle.tbl_maker.specs.Shapes.{is_type, is_form, form_size, form_word, is_shape, shape_word, shape_size};
ghost use Rattle.tbl_maker.specs.Words.{IsNoType, IsNoForm, AddsFormOr, ReadsShape};
ghost use Rattle.tbl_maker.specs.declared.form.Form.{Form};

use crate::field_type::{FieldType, number_type};
use crate::form::Form;
use crate::names::is_field_name;
use crate::number::count_in;
use crate::splitting::split_at_byte;
use std::alloc::Global;
use std::marker::Model;
use tbl_kinds::{Memory, Name, Name16};

/// The most bytes of a table (cFE's `CFE_PLATFORM_TBL_MAX_SNGL_TABLE_SIZE`, 16,384 here).
pub(crate) const TABLE_LIMIT: u32 = 16_384;

/// A value in hexadecimal digits has fewer bytes.
const HEX_LIMIT: u32 = 65;

/// The types and the names of a table's fields, in the order in which they stand in its image.
#[derive(Drop)]
pub struct Shape {
    forms: Vec<Form>,
}

impl Model for Shape {
    ghost use Rattle.std.specs.Prelude.{◌≡◌, List, true};
    ghost use Rattle.tbl_maker.specs.declared.form.Form.{Form};
    ghost use Rattle.tbl_maker.specs.Shapes.{is_shape};

    ghost Value = { List Form };

    ghost view = { λ s. s.forms.items };

    ghost invariant = { λ s. is_shape s.forms.items ≡ true };
}

impl Shape {
    /// The types and the names.
    pub fn forms(&self) -> &[Form]
        ensures forms { result.now ≡ self.now }
        ensures shape { is_shape result.now ≡ true }
    {
        self.forms.as_slice()
    }
}

/// The type that has this word in a shape.
fn type_in(word: &[u8]) -> Option<FieldType>
    ensures some { IfSome result (λ kind. word.now ≡ sized_word kind) }
    ensures right { IfSome result (λ kind. is_type kind ≡ true) }
    ensures none { IfNone result (IsNoType word.now) }
{
    let Some(digits) = word.strip_prefix(b"hex") else {
        let (sign, width) = number_type(word)?;
        return Some(FieldType::Number { sign, width });
    };
    let length = count_in(digits, HEX_LIMIT)?;
    if length == 0 {
        return None;
    }
    Some(FieldType::Hex {
        length: length as u8,
    })
}

/// The form of a field that has this word, `TYPE:NAME`.
fn form_in(word: &[u8]) -> Option<Form>
    ensures some { IfSome result (λ form. word.now ≡ form_word form) }
    ensures right { IfSome result (λ form. is_form form ≡ true) }
    ensures none { IfNone result (IsNoForm word.now) }
{
    let (kind, name) = split_at_byte(word, b':')?;
    let kind = type_in(kind)?;
    if !is_field_name(name) {
        return None;
    }
    Some(Form {
        kind,
        name: Name::of(name),
    })
}

/// Appends the form of a field that has this word, and gives the room that is left. None where it is no form, or has no
/// room.
fn add_form(forms: &mut Vec<Form>, word: &[u8], room: usize) -> Result<Option<usize>, Memory>
    ensures { AddsFormOr word.now forms.old.items forms.new.items room result }
{
    let Some(form) = form_in(word) else {
        return Ok(None);
    };
    let Some(left) = room.checked_sub(form.kind.size()) else {
        return Ok(None);
    };
    forms.push(form)?;
    Ok(Some(left))
}

/// The shape that a word writes: `TYPE:NAME` for each field, joined by commas, where hex is written with its number of
/// bytes, `hexN:NAME`. None exactly where the word is no shape, or one of more than 16,384 bytes.
pub fn read_shape(alloc: Global, word: &[u8]) -> Result<Option<Shape>, Memory>
    ensures { ReadsShape word.now result }
{
    let mut forms = Vec::new(alloc);
    let mut rest = word;
    let mut room = TABLE_LIMIT as usize;
    while let Some((piece, after)) = split_at_byte(rest, b',') {
        let Some(left) = add_form(&mut forms, piece, room)? else {
            return Ok(None);
        };
        room = left;
        rest = after;
    }
    match add_form(&mut forms, rest, room)? {
        Some(_) => Ok(Some(Shape { forms })),
        None => Ok(None),
    }
}

//! The form of a field: its type and its name.

use crate::field_type::FieldType;
use tbl_kinds::Name16;

/// The type and the name of a field.
#[derive(PartialEq, Eq, Drop)]
pub struct Form {
    /// Its type.
    pub kind: FieldType,
    /// Its name: 1 to 16 of a to z, 0 to 9 and the underscore.
    pub name: Name16,
}

//! Table files from descriptions in text and back: a file is made exactly of what is a description's one text, with the
//! first bad line named else, and a file is described by a shape in the one way that gives its bytes again.
#![tactic(auto)]

mod describing;
mod field;
mod field_type;
mod form;
mod laws;
mod making;
mod names;
mod number;
mod shape;
mod splitting;
mod value;

pub use describing::{DescribeFault, describe_file};
pub use field_type::{FieldType, Sign, Width};
pub use form::Form;
pub use laws::{
    a_shape_and_a_file_have_one_description, a_text_has_one_description, a_word_has_one_shape,
    described_files_are_made_again, made_files_are_described,
};
pub use making::{MakeFault, make_file};
pub use shape::{Shape, read_shape};

//! Table files between values and bytes: a file is read exactly where it is whole, with the first flaw named else, and
//! is written in its one spelling.
#![tactic(auto)]

mod laws;
mod reading;
mod writing;

pub use laws::{
    nothing_else_is_looked_at, table_files_are_read, what_is_read_is_a_table_file,
    written_files_are_read,
};
pub use reading::{FileFault, IMAGE_PLACE, TABLE_SUBTYPE, TableFile, read_table_file};
pub use writing::{write_image_file, write_table_file};

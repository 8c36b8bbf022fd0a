//! The transcript both ways: entries and end records are spelled, and read again from the front of bytes.
#![tactic(auto)]

mod laws;
mod reading;
mod writing;

pub use laws::an_end_is_no_entry;
pub use reading::{EndRecord, EntryHead, read_end, read_entry};
pub use writing::{FRONT_LENGTH, end_record, spell_around, spell_entry};

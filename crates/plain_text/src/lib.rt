//! Words and numbers as plain text, both ways: the layer above may rely on it that a number has one spelling, and that nothing else is read as a number.
#![tactic(auto)]

mod reading;
mod writing;

pub use reading::read_decimal;
pub use writing::{append_decimal, append_text};

//! The validation functions that the shipped program has: the layer above may rely on it which function of which application
//! has which number.
#![tactic(auto)]

mod functions;
mod validators;

pub use functions::{FUNCTIONS, Shipped, shipped_entries, shipped_entry};
pub use validators::{FirstByte, LastXor};

//! Entries go to a sink: the layer above may rely on it that the sink takes an entry's spelling whole, or that its own failure or a lack
//! of memory is told, and then a front of the spelling was taken, or nothing.
#![tactic(auto)]

mod writing;

pub use writing::{WriteFault, write_entry};

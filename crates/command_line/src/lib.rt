//! What the command line of a program says, and the store file that it names: the program may rely on it that an opened store has room
//! for preserved memory.
#![tactic(auto)]

mod information;
mod store;
mod words;

pub use information::Information;
pub use store::open_store;
pub use words::{CommandLine, WordsFault, command_line};

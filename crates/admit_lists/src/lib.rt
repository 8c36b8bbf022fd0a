//! Lists of admitted spacecraft and processors, as words of a command line spell them: the layer above may rely on it that each
//! word spells at most one list, and that nothing else is read as one.
#![tactic(auto)]

mod reading;

pub use reading::read_admit;

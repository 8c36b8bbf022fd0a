//! Validation functions of applications in C: the layer above may rely on it that each answers with the verdicts that were handed in for
//! one request, and refuses an image without one.
#![tactic(auto)]

mod answering;
mod kit;

pub use answering::Answering;
pub use kit::{FUNCTIONS, mute_entries};

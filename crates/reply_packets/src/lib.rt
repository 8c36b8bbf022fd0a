//! The packets of a reply and the running numbers in them: the layer above can be sure that both are those that the model has for the
//! request and its effect.
#![tactic(auto)]

mod counters;
mod counting;
mod events;
mod packets;
mod telling;

pub use counters::{Counters, Update, Validation};
pub use telling::{tell_call, tell_command};

//! A lock at which actors take turns at one value: whoever holds an actor's seat is the only one who plays it, and finds the value
//! as this actor left it but for turns of others.
#![tactic(auto)]

mod lock;
mod rule;

pub use lock::TurnLock;
pub use rule::{Place, TurnRule, Turns, View};

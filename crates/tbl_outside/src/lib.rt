//! What lies outside the service, as traits: a layer above relies on the bytes that are told, on what a reset at any
//! moment may leave of a bank, on counts of faults and stops that never fall, and on a failure or stop coming only where
//! its count rose.
#![tactic(auto)]

mod bank;
mod gate;
mod stream;
mod validator;

pub use bank::{Back, Bank, Written};
pub use gate::Gate;
pub use stream::{Failed, HowFar, Sink, Source};
pub use validator::{KitEntry, Validator};

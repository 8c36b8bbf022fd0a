//! A session with a thread for each actor: the layer above can be sure that what the threads play is one legal history, in which each
//! actor's requests are its script, in order.
#![tactic(auto)]

mod halves;
mod held;
mod rest;
mod scripts;
mod taken;
mod turns;
mod watching;
pub mod workers;

pub use held::{Crew, ReadPlan, Turn};
pub use scripts::Scripts;
pub use watching::{WatchEnd, crew_watched};

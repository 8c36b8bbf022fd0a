//! The drill: a session of any length that a seed decides, of which the layer above may rely on each record and on their order.
#![tactic(auto)]

mod generator;
mod opening;
mod record;
mod rounds;
mod scripted;

pub use scripted::{Scripted, drill_session};

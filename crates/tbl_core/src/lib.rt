//! The service itself: one step plays one request of one actor and adds one legal entry to the history that it keeps.
#![tactic(auto)]

mod asking;
mod banks;
mod boots;
mod commands;
mod copying;
mod dispatch;
mod ending;
mod engine;
mod log;
mod owner_calls;
mod parts;
mod playing;
mod quiet;
mod requests;
mod service;
mod storing;

pub use engine::Engine;
pub use service::{Core, StartFault, StepFault};

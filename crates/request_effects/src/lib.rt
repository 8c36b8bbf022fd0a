//! What a command was read as, and what a request did, as values: the layer above can be sure that an effect represents the model's in
//! every field that telemetry reports, and also says what came from the outside.
#![tactic(auto)]

mod clock;
mod report;
mod requests;

pub use clock::Clock;
pub use report::Report;
pub use requests::{ReadCommand, code_of, notice, read, subject};

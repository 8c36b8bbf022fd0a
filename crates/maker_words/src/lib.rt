//! The words `make` and `describe` between a source and a sink: the whole input is read, and the sink takes the file or the
//! description that comes of it, or the status says what was in the way.
#![tactic(auto)]

mod describing;
mod inputs;
mod making;
mod writing;

pub use describing::describe_input;
pub use making::make_input;

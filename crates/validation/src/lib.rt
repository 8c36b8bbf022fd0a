//! Validation functions and what is asked of them: the layer above can be sure that a verdict is the one that the function under a number
//! gives on exactly the image handed to it, asked once, and that pending validations are a list of pairs.
#![tactic(auto)]

mod kit;
mod pending;

pub use kit::Kit;
pub use pending::{PendFault, Pending};

//! The uplinked files, by name: the layer above can be sure that they are a list in order of first uplink, which each call changes by one
//! step.
#![tactic(auto)]

mod contents;
mod drawer;

pub use contents::Contents;
pub use drawer::{Drawer, PutFault};

//! The table registry: the layer above can be sure that each call is one step of the registered tables and their handles.
#![tactic(auto)]

mod pin;
mod row;
mod rows;
mod tables;

pub use pin::Pin;
pub use row::{Dump, NewTable, RowView};
pub use tables::{AddFault, Tables};

//! The access descriptors of tables: the layer above can be sure that each change is one step of the list of places.
#![tactic(auto)]

mod handle_view;
mod handles;
mod pins;
mod places;
mod row_pins;

pub use handle_view::HandleView;
pub use handles::Handles;

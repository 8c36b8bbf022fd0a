//! Validations, activations and updates: the layer above can be sure that each request does to the desk what the model says, that a verdict
//! is given on exactly the image that is named, and that a load goes active only if its owner updates the table.
#![tactic(auto)]

mod activations;
mod judging;
mod management;
mod questions;
mod validations;

pub use activations::{activate, update};
pub use management::{get_status, manage};
pub use questions::{manage_asks, validate_asks};
pub use validations::{app_validate, validate};

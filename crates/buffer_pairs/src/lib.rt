//! The images of a table: the layer above can be sure that an image is a value, which nobody changes while another owner has it.
#![tactic(auto)]

mod buffers;
mod image;

pub use buffers::Buffers;
pub use image::{Image, SPARE_LIMIT};

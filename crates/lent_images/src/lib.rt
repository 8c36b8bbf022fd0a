//! What a thread reads of an image that was lent to it, without any lock: the layer above can be sure that the bytes are those that a Read
//! asks for.
#![tactic(auto)]

mod slices;

pub use slices::slice_of;

//! Room in preserved memory for the blocks of the Critical Data Store: the layer above may rely on it that a block is
//! placed at the least offset that there is, and refused only where there is none.
#![tactic(auto)]

mod pool;

pub use pool::place;

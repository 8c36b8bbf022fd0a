//! Addresses of tables: the layer above can be sure that each call is the model's, also for a Read whose bytes were taken of a lent image
//! before, and that such a Read can't run out of memory.
#![tactic(auto)]

mod addresses;

pub use addresses::{get, read, read_lent, release};

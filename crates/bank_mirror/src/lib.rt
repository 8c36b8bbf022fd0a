//! Two banks as one: a layer above may rely on a `Bank` that keeps its whole trait, and that goes on while one of the two
//! fails.
#![tactic(auto)]

mod banks;
mod checks;
mod copies;
mod in_use;
mod marking;
mod marks;
mod mirror;
mod opening;
mod reads;
mod writes;

pub use banks::STALE;
pub use in_use::{Alone, InUse};
pub use mirror::{Mirror, OpenBack};
pub use opening::OpenFault;

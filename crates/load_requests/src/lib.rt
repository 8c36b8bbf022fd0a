//! Uplinked files, loads that the owners of tables and the ground ask for, and aborts: the layer above can be sure that each of them is the
//! model's request, and that one that runs out of memory leaves the desk as it was.
#![tactic(auto)]

mod aborts;
mod ground_loads;
mod owner_loads;
mod questions;
mod refusals;
mod uplinks;

pub use aborts::abort;
pub use ground_loads::load;
pub use owner_loads::{load_file, load_image};
pub use questions::{load_file_asks, load_image_asks};
pub use uplinks::file;

//! What requests about tables work on, and the one contract that each has: the layer above can be sure that what several of them read of
//! a table is the model's, and that `Served` says the same of any request.
#![tactic(auto)]

mod checks;
mod desk;
mod questions;
mod rows;
mod users;

pub use checks::check;
pub use desk::Desk;
pub use questions::{Question, Questions};
pub use rows::{EVENT_LENGTH, NOTICE_LENGTH, activated, copy_room, event_room, named, validator};
pub use users::{BUFFERS, put_users};

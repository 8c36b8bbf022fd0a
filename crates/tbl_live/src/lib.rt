//! A service that a program's own threads call: the layer above can be sure that all calls are in one legal history, and that each seat's
//! calls are all that this history has of its actor, none lost, none made up and none twice.
#![tactic(auto)]

mod board;
mod cores;
mod lasting;
mod receipts;
mod seats;
mod served;
mod service;

pub use board::{Board, Ticket};
pub use cores::{ServiceCore, Taken};
pub use lasting::Lasting;
pub use receipts::{CallFault, Receipt};
pub use seats::{Seat, Seats};
pub use served::Served;
pub use service::{REPLY_LIMIT, Service};

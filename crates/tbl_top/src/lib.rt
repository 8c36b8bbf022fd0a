//! A session from its bytes to its transcript, in order or with a thread for each actor: in each case the history that is written is the
//! sequential service's.
#![tactic(auto)]

mod collecting;
mod crewing;
mod drilling;
mod listing;
mod running;
mod session;
mod stepping;
mod summary;
mod telling;
mod twice;
mod watching;
mod words;

pub use running::run;
pub use session::run_in_order;
pub use tbl_stream::Service;
pub use twice::{BetweenCalls, Reset, Session, run_again};
pub use words::Word;

//! Session records as they come in, for as long as they come or up to a limit: each is played, its entry goes to the sink at once, and no
//! entry is kept. Whatever the service had played before, what the sink takes is what it played since.
#![tactic(auto)]

mod finding;
mod finishing;
mod opening;
mod playback;
mod reading;
mod service;
mod serving;
mod standing;
mod stepping;
mod stream;
mod words;
mod writing;

pub use finding::next_item;
pub use finishing::{
    BANK_FAILED, DONE, NO_MEMORY, SINK_FAILED, end_status, finish, finish_unbegun, unbegun_status,
};
pub use reading::PIECE_LENGTH;
pub use service::Service;
pub use serving::{play_records, serve};
pub use standing::Standing;
pub use stream::{Fed, Stream};
pub use writing::write;

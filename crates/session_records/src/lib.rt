//! Session records both ways: what stands at the front of an input is read as one request of one actor, and a request is written in its one spelling.
#![tactic(auto)]

mod calls;
mod fields;
mod head;
mod kept;
mod lacking;
mod laws;
mod plain;
mod reading;
mod writing;

pub use head::BODY_LIMIT;
pub use kept::drop_front;
pub use lacking::bytes_lacking;
pub use laws::{
    a_spelling_is_of_one_request, an_input_has_one_reading, bad_stays_bad,
    read_in_order_is_the_longest_list, refused_bytes_begin_no_record, short_is_below_the_longest,
    spellings_stand_apart,
};
pub use reading::{Next, next_record};
pub use writing::{body_len, write_record};

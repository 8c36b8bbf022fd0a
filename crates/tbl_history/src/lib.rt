//! A service at its start, and what it keeps to from its opening on: whoever plays requests can rely on all of it after any number of them.
#![tactic(auto)]

mod opening;

pub use opening::start;

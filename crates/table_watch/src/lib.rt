//! Looks at the images of tables by their check words: the layer above can be sure that each look is reported next to the latest one at a
//! table of that name, and that the report has a line for each.
#![tactic(auto)]

mod report;
mod watch;

pub use watch::{Seen, Watch};

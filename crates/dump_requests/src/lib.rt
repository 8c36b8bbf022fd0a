//! Dumps, housekeeping and what the registry says of a table: the layer above can be sure that each request is the model's, that a file has
//! exactly the image that it is of, or exactly the registered tables, and that a pending dump uses its buffer until it is over.
#![tactic(auto)]

mod dumps;
mod files;
mod filled_dumps;
mod owners;
mod registry;

pub use dumps::{DumpCommand, dump, dump_registry};
pub use filled_dumps::housekeeping;
pub use owners::{dump_to_buffer, edit};
pub use registry::{get_info, send_registry};

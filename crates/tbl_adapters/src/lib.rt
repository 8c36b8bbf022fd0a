//! The program's edge to the system: standard input, standard output, and a bank in a file; a layer above relies on a count
//! of faults that rises at each failure, and on this, that over a file that tells its bytes the bank is preserved memory.
#![tactic(auto)]

mod fault;
mod moving;
mod random_access;
mod standard;
mod store_file;
mod system_file;

pub use fault::OpenFault;
pub use random_access::RandomAccess;
pub use standard::{StandardInput, StandardOutput};
pub use store_file::StoreFile;
pub use system_file::{Syncing, SystemFile};

//! The Critical Data Store: the layer above can be sure that after a reset at any moment, also inside a write, each block comes back as its
//! last completed image or one whose copy broke off since, and that each call is the definition's step on the blocks.
#![tactic(auto)]

mod block_list;
mod boot;
mod carrying;
mod clearing;
mod fault;
mod gates;
mod images;
mod lookups;
mod making;
mod recovery;
mod reserving;
mod settling;
mod slot;
mod store;
mod tidying;
mod writes;

pub use cds_layout::RestoreFault;
pub use fault::{BankFault, ReserveFault};
pub use recovery::{RecoverFault, recover};
pub use slot::Slot;
pub use store::Store;

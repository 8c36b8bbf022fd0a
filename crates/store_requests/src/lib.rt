//! What requests do to the Critical Data Store: the layer above can be sure that each call gives the model's effect for any note that a
//! boot after it may complete, and that a reset in it leaves what its calls had made of the blocks so far.
#![tactic(auto)]

mod blocks;
mod copies;
mod critical;
mod effect;
mod entering;
mod notes;
mod own_blocks;
mod registering;
mod table_blocks;

pub use blocks::cds_register;
pub use copies::{CopyRoom, copy_room, then_copy};
pub use effect::Effect;
pub use notes::note_room;
pub use own_blocks::{cds_copy, cds_delete, cds_restore};
pub use registering::register;
pub use table_blocks::delete_cds;

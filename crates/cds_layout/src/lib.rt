//! The layout of the Critical Data Store in preserved memory: the layers above may rely on it that hostile bytes are
//! read as a directory of blocks that can be there together, that at most one of a block's two places shows, and that it is
//! whole exactly where its head says so.
#![tactic(auto)]

mod blocks;
mod directory;
mod entry;
mod front;
mod laws;
mod listing;
mod places;
mod text;
mod turns;

pub use blocks::{RestoreFault, head_bytes, read_block, read_first, read_turns, spell};
pub use directory::{Directory, is_first_version, is_live, read_directory};
pub use entry::entry_bytes;
pub use front::read_front;
pub use laws::{
    a_boot_without_strays_only_reads, a_call_asks_at_most_four_times, blocks_can_be_there_together,
    directory_stands_in_the_first_bytes, written_entries_are_read, written_parts_fill_their_places,
};
pub use listing::{TextFault, store_text};
pub use places::{
    BANK_SIZE, BLOCKS_BEGIN, BLOCKS_END, ENTRIES_PLACE, FIRST_VERSION, GATE_CLOSED, GATE_OPEN,
    HEAD_LENGTH, LIVE_MARK, MOST_IMAGE, MOST_PLACE, SLOTS, VERSION, VERSION_PLACE, end_of,
    gate_place, place_offset, room_for, turn_place, turns_place,
};
pub use turns::{Place, Turn, Turns, shown, turn_byte};

//! Tables of cases for programs that test a layer: rows of cells, and bytes in hexadecimal with names for pieces that
//! come again. A program may rely on each row being tried once, in order, and on each that fails being told.
#![tactic(auto)]

mod answer;
mod banks;
mod fault;
mod lists;
mod number;
mod piece;
mod pieces;
mod row;
mod rows;
mod table;

pub use answer::{kept, one_word, same_bytes, same_text, uplink_of};
pub use banks::{BANK_SIZE, bank_bytes, bank_in, bank_over, new_bank, zeros};
pub use fault::CaseFault;
pub use lists::admit_of;
pub use number::{byte, count_of, number_in, numbers_in, short};
pub use pieces::Pieces;
pub use row::Row;
pub use rows::{RowCases, play_rows};
pub use table::{Cases, play_table};

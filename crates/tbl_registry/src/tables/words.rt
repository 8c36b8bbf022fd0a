//! The check words of images, which are kept with them.

ghost use Rattle.std.specs.Prelude.{◌≡◌, length, IfSome, slice_index_or, option_and_then, None};
ghost use Rattle.std.specs.Option.{ForSome};
ghost use Rattle.tbl_model.specs.State.{Table};
ghost use Rattle.tbl_model.specs.Tables.{table_at};
ghost use Rattle.tbl_registry.specs.Shown.{KeepsWord};

use super::Tables;
use crate::row::Row;
use crate::rows::table_in;
use check_word::Checked;

/// The check word of an image of the table of the row.
fn word_of(row: &mut Option<Row>, active: bool) -> Option<u16>
    ensures { KeepsWord result active row.old row.old row.new }
{
    match row {
        Some(table) => table.keep_check_word(active),
        None => None,
    }
}

/// The same of the row of this number.
#[tactic(auto, using(crate::proofs::Spares::read_back))]
fn word_in(rows: &mut [Option<Row>], row: usize, active: bool) -> Option<u16>
    ensures { KeepsWord result active (slice_index_or rows.old row None) rows.old rows.new }
{
    if rows.len() <= row {
        return None;
    }
    word_of(&mut rows[row], active)
}

/// Works out the check word of each table's last image.
fn keep_words(rows: &mut [Option<Row>])
    ensures { rows.new ≡ rows.old }
{
    for row in 0..rows.len() {
        let _ = word_in(rows, row, true);
    }
}

impl Tables {
    /// The check word of the last image of the table of a row (`active`), or of that of its open load. None if there is no such image. It
    /// is kept with the image, so that it is worked out once as long as nobody changes the image.
    pub fn keep_check_word(&mut self, row: u8, active: bool) -> Option<u16>
        ensures { KeepsWord result active (table_at self.old row) self.old self.new }
    {
        word_in(&mut self.rows, row as usize, active)
    }

    /// The last image of the table of a row, with its check word. None if there is none.
    pub fn last_checked(&self, row: u8) -> Option<Checked<'_>>
        ensures image { result ≡ option_and_then (λ (t : Table). t.last) (table_at self.now row) }
        ensures size { IfSome result (λ image. ForSome (table_at self.now row) (λ t. length image ≡ t.size)) }
    {
        Some(table_in(&self.rows, row)?.whole(false)?.checked())
    }

    /// Works out the check word of each table's last image, and keeps it with the image, before all of them are asked for.
    pub fn keep_check_words(&mut self)
        ensures { self.new ≡ self.old }
    {
        keep_words(&mut self.rows);
    }
}

//! What the load of a table's owner would ask of its validation function, before it is played.

ghost use Rattle.std.specs.Prelude.{◌≡◌, IsSome, IfOk};
ghost use Rattle.std.specs.Option.{ForSome};
ghost use Rattle.tbl_model.specs.Tables.{table_at};
ghost use Rattle.tbl_model.specs.AppLoads.{load_image_of, named_file_of};
ghost use Rattle.load_requests.specs.Asking.{judge_of, WouldAsk};

use crate::ground_loads::table_file;
use crate::owner_loads::{closed_refusal, file_refusal, image_refusal};
use desk::{Desk, Question, Questions, validator};
use tbl_kinds::{Answer, Bytes, Memory, Name64};
use tbl_outside::Validator;
use tbl_registry::Tables;

/// The function of the table of a row, if nothing refuses the load.
fn judge_of(tables: &Tables, row: u8, refusal: Option<Answer>) -> Option<u8>
    ensures { ForSome (table_at tables.now row) (λ t. result ≡ judge_of refusal t.validator) }
{
    match refusal {
        Some(_) => None,
        None => validator(tables, row),
    }
}

/// What `load_image` would ask about this image of the table of a row.
pub fn load_image_asks<C: Validator>(
    desk: &Desk<C>,
    row: u8,
    image: &[u8],
) -> Result<Questions, Memory>
    requires table { IsSome (table_at desk.now.tables row) }
    ensures asks { IfOk result (WouldAsk desk.now row (λ s given t. load_image_of s image.now given row t)) }
{
    let refusal = image_refusal(&desk.tables, row, image.len());
    let Some(number) = judge_of(&desk.tables, row, refusal) else {
        return Ok(Questions::none());
    };
    let image = Bytes::of(desk.alloc, image)?;
    Ok(Questions::only(Some(Question { number, image })))
}

/// What `load_file` would ask about the image that a file in the drawer makes.
pub fn load_file_asks<C: Validator>(
    desk: &mut Desk<C>,
    row: u8,
    file: &Name64,
) -> Result<Questions, Memory>
    requires table { IsSome (table_at desk.old.tables row) }
    ensures asks { IfOk result (WouldAsk desk.old row (λ s given t. named_file_of s file.now given row t)) }
    ensures same { desk.new ≡ desk.old }
{
    if closed_refusal(&desk.tables, row).is_some() {
        return Ok(Questions::none());
    }
    let (parsed, bytes) = match table_file(&desk.drawer, &desk.admit, file) {
        Ok(read) => read,
        Err(_) => return Ok(Questions::none()),
    };
    let refusal = file_refusal(&desk.tables, row, &parsed);
    let Some(number) = judge_of(&desk.tables, row, refusal) else {
        return Ok(Questions::none());
    };
    let image = desk.tables.patched(desk.alloc, row, parsed.offset, bytes)?;
    let image = Bytes::of(desk.alloc, image.bytes())?;
    Ok(Questions::only(Some(Question { number, image })))
}

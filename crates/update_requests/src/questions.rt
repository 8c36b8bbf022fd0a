//! What a request of a table's owner would ask of validation functions, before it is played.

ghost use Rattle.std.specs.Prelude.{◌≡◌, IfOk};
ghost use Rattle.std.specs.Option.{ForSome};
ghost use Rattle.tbl_model.specs.Tables.{table_at};
ghost use Rattle.tbl_model.specs.Management.{manage_of};
ghost use Rattle.tbl_model.specs.Validations.{validation_of};
ghost use Rattle.validation.specs.Ready.{ArePending};
ghost use Rattle.desk.specs.Questions.{asked};
ghost use Rattle.update_requests.specs.Questions.{WouldAsk, pending_asked};

use desk::{Desk, Question, Questions};
use tbl_kinds::{Bytes, Memory};
use tbl_outside::Validator;

/// What the validation of an image of the table of a row asks, if it is pending.
fn pending_asks<C: Validator>(
    desk: &Desk<C>,
    row: u8,
    active: bool,
) -> Result<Option<Question>, Memory>
    requires { ArePending desk.now.tables desk.now.pending }
    ensures asks { IfOk result (λ it. ForSome (table_at desk.now.tables row) (λ t. asked it ≡ pending_asked desk.now.pending row t active)) }
{
    if !desk.pending.has(row, active) {
        return Ok(None);
    }
    let Some(table) = desk.tables.row(row) else {
        return Ok(None);
    };
    let Some(number) = table.validator else {
        return Ok(None);
    };
    let Some(image) = desk.tables.image(row, active) else {
        unreachable!();
    };
    let image = Bytes::of(desk.alloc, image)?;
    Ok(Some(Question { number, image }))
}

/// What `app_validate` would ask.
pub fn validate_asks<C: Validator>(desk: &Desk<C>, row: u8) -> Result<Questions, Memory>
    requires { ArePending desk.now.tables desk.now.pending }
    ensures asks { WouldAsk desk.now row (λ s given t. validation_of s given row t) result }
{
    let active = desk.pending.has(row, true);
    Ok(Questions::only(pending_asks(desk, row, active)?))
}

/// What `manage` would ask.
pub fn manage_asks<C: Validator>(desk: &Desk<C>, row: u8) -> Result<Questions, Memory>
    requires { ArePending desk.now.tables desk.now.pending }
    ensures asks { WouldAsk desk.now row (λ s given t. manage_of s given row t) result }
{
    let last = pending_asks(desk, row, true)?;
    let load = pending_asks(desk, row, false)?;
    match last {
        None => Ok(Questions::only(load)),
        Some(last) => Ok(Questions {
            first: Some(last),
            second: load,
        }),
    }
}

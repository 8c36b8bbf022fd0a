//! Further handles on registered tables, what the registry says of a table, and notices of pending work.

ghost use Rattle.std.specs.Prelude.{◌≡◌, IsSome};
ghost use Rattle.tbl_kinds.specs.Free.{least_free};
ghost use Rattle.tbl_model.specs.State.{State};
ghost use Rattle.tbl_model.specs.Tables.{table_at};
ghost use Rattle.tbl_model.specs.Effects.{answered_with};
ghost use Rattle.tbl_model.specs.Sharing.{share_by, share_effect, is_notice, noticed_effect, info_effect};
ghost use Rattle.sharing.specs.Finding.{Finds};

use crate::apps::Apps;
use tbl_kinds::{Answer, Name40, Status};
use tbl_model::Notice;
use tbl_registry::Tables;

/// Gives an application a further handle on the table of a row.
fn share_row(tables: &mut Tables, app: u8, row: u8) -> Answer
    requires { IsSome (table_at tables.old row) }
    ensures { (s : State) → s.tables ≡ tables.old → share_by s app row (least_free tables.old.handles) ≡ answered_with s result tables.new }
{
    match tables.new_handle(app, row) {
        Some(handle) => Answer {
            status: Status::SUCCESS,
            detail: u32::from(handle),
        },
        None => Answer::plain(Status::ERR_HANDLES_FULL),
    }
}

/// Gives an application a further handle on the table of this full name (`CFE_TBL_Share`), whoever owns it: the least free one, which is
/// the detail. It knows of no image. `ERR_BAD_APP`: the application doesn't run; `ERR_INVALID_NAME`: no table has this name;
/// `ERR_HANDLES_FULL`: 256 handles are given.
#[tactic(auto, unfolding(tbl_model::specs::Sharing::share_effect))]
pub fn share(tables: &mut Tables, apps: &Apps, app: u8, name: &Name40) -> Answer
    ensures { (s : State) → s.tables ≡ tables.old → s.apps ≡ apps.now → share_effect s app name.now ≡ answered_with s result tables.new }
{
    if apps.name(app).is_none() {
        return Answer::plain(Status::ERR_BAD_APP);
    }
    match tables.find(name.bytes()) {
        Some(row) => share_row(tables, app, row),
        None => Answer::plain(Status::ERR_INVALID_NAME),
    }
}

/// The row of the table of this full name, of whose record any application that runs may ask (`CFE_TBL_GetInfo`): the
/// bytes that `Tables::write_info` writes. `ERR_BAD_APP`: the application doesn't run; `ERR_INVALID_NAME`: no table has this name.
#[tactic(auto, unfolding(tbl_model::specs::Sharing::info_effect))]
pub fn row_of(tables: &Tables, apps: &Apps, app: u8, name: &Name40) -> Result<u8, Status>
    ensures { Finds tables.now apps.now (λ s. info_effect s app name.now) result }
{
    if apps.name(app).is_none() {
        return Err(Status::ERR_BAD_APP);
    }
    match tables.find(name.bytes()) {
        Some(row) => Ok(row),
        None => Err(Status::ERR_INVALID_NAME),
    }
}

/// Whether a packet of this message id, with this function code, can notify an owner of pending work: the id is that of a command, 0x1800
/// to 0x1FFF, and the code has seven bits.
fn is_notice(msg: u16, code: u16) -> bool
    ensures { result ≡ is_notice msg code }
{
    0x1800 <= msg && msg <= 0x1FFF && code <= 127
}

/// From now on the owner of the table of a row is notified of work that the ground asks for, by a command packet with this message id,
/// function code and parameter (`CFE_TBL_NotifyByMessage`). `ERR_NOTICE_ID`: the id isn't one of a command, 0x1800 to 0x1FFF, or the code
/// is above 127.
pub fn notify(tables: &mut Tables, row: u8, msg: u16, code: u16, parameter: u32) -> Answer
    requires { IsSome (table_at tables.old row) }
    ensures { (s : State) → s.tables ≡ tables.old → noticed_effect s row msg code parameter ≡ answered_with s result tables.new }
{
    if !is_notice(msg, code) {
        return Answer::plain(Status::ERR_NOTICE_ID);
    }
    let notice = Notice {
        msg,
        code: code as u8,
        parameter,
    };
    tables.set_notice(row, notice);
    Answer::plain(Status::SUCCESS)
}

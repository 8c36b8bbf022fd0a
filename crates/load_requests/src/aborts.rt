//! Loads that the ground drops.

ghost use Rattle.std.specs.Prelude.{◌≡◌};
ghost use Rattle.tbl_kinds.specs.declared.entry.Reply.{Reply};
ghost use Rattle.tbl_model.specs.Activations.{abort_effect};
ghost use Rattle.desk.specs.Desk.{IsEmpty, output};
ghost use Rattle.desk.specs.Requests.{Made, command};

use desk::Desk;
use request_effects::{Report, subject};
use tbl_kinds::{Answer, Name40, Status};
use tbl_outside::Validator;

/// The ground drops the open load of the table of this name (`CFE_TBL_ABORT_LOAD_CC`), with its activation and its pending validation. All
/// else stays, a pending validation of the last image too. `ERR_NO_LOAD`: no load is open.
pub fn abort<C: Validator>(desk: &mut Desk<C>, report: &mut Report, name: &Name40) -> Answer
    ensures made { (reply : Reply) → IsEmpty (output reply report.old) → Made C.Validator (command (λ s. abort_effect s name.now) 0) desk.old desk.new (output reply report.new) result }
{
    let Some(table) = subject(&desk.tables, name) else {
        return Answer::plain(Status::ERR_NO_SUCH_TABLE);
    };
    let row = table.row;
    report.name_table(table);
    if desk.tables.load(row).is_none() {
        return Answer::plain(Status::ERR_NO_LOAD);
    }
    // A validation of an image that is gone could never be done.
    desk.tables.close_load(row);
    desk.pending.drop_pair(row, false);
    Answer::plain(Status::SUCCESS)
}

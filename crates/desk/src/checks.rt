//! The tests that all calls with a handle share.

ghost use Rattle.std.specs.Prelude.{◌≡◌, ℕ, IsSome, IfOk, IfErr, OnOk};
ghost use Rattle.tbl_model.specs.State.{State};
ghost use Rattle.tbl_model.specs.Tables.{table_at};
ghost use Rattle.tbl_model.specs.TableSteps.{access_of};
ghost use Rattle.tbl_model.specs.Effects.{Effect as Model, answered};
ghost use Rattle.tbl_model.specs.Subjects.{if_handle};

use sharing::Apps;
use tbl_kinds::Status;
use tbl_registry::Tables;

/// The tests that all calls with a handle have in common: the application runs, the handle is in use, it is this application's, its table
/// is there, and, if only the owner may call, the caller owns it. The row of the table.
pub fn check(tables: &Tables, apps: &Apps, app: u8, handle: u16, owner: bool) -> Result<u8, Status>
    ensures ok { IfOk result (λ row. (s : State) (effect : ℕ → Model) → s.tables ≡ tables.now → s.apps ≡ apps.now → if_handle s app handle owner effect ≡ effect row) }
    ensures err { IfErr result (λ status. (s : State) (effect : ℕ → Model) → s.tables ≡ tables.now → s.apps ≡ apps.now → if_handle s app handle owner effect ≡ answered s status 0) }
    ensures table { IfOk result (λ row. IsSome (table_at tables.now row)) }
    ensures access { OnOk result (IsSome (access_of tables.now handle)) }
{
    if apps.name(app).is_none() {
        return Err(Status::ERR_BAD_APP);
    }
    tables.check(app, handle, owner)
}

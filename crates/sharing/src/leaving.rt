//! Handles that are given back, tables that go with them, and applications that end.

ghost use Rattle.std.specs.Prelude.{◌≡◌, IsSome, Some, if◌then◌else◌};
ghost use Rattle.tbl_kinds.specs.Statuses.{is_success};
ghost use Rattle.tbl_model.specs.TableSteps.{handle_at, registered_by, without_handle, remove};
ghost use Rattle.tbl_model.specs.Sharing.{is_handle_of, give_up, give_up_if, without_handles_of, unregister_effect, exit_effect};
ghost use Rattle.tbl_model.specs.Effects.{answered_left};
ghost use Rattle.validation.specs.Kits.{owners, dropped};
ghost use Rattle.sharing.specs.Leaving.{GivesUp};

use crate::apps::Apps;
use tbl_kinds::{Answer, Status};
use tbl_outside::Validator;
use tbl_registry::Tables;
use validation::{Kit, Pending};

/// The table of a row is removed, and the handle that registered it.
fn take_away(tables: &mut Tables, handle: u16, row: u8)
    requires { registered_by tables.old handle ≡ Some row }
    ensures { tables.new ≡ without_handle handle (remove row tables.old) }
{
    // Without its table the handle pins nothing, so that freeing it has no image to drop.
    tables.remove(row);
    tables.free_handle(handle);
}

/// Gives a handle up. That of a table's registration takes the table with it, and all validations that are pending for it.
fn give_up(tables: &mut Tables, pending: &mut Pending, handle: u16)
    requires { IsSome (handle_at tables.old handle) }
    ensures { GivesUp tables.old tables.new pending.old pending.new (λ s next. give_up handle s ≡ next) }
{
    match tables.registered_by(handle) {
        Some(row) => {
            take_away(tables, handle, row);
            pending.drop_row(row);
        }
        None => tables.free_handle(handle),
    }
}

/// Takes a handle back (`CFE_TBL_Unregister`), which is free again; its pin ends. If its table was registered with it, that table is gone,
/// with its load and all that is pending for it, and every other handle on it leads to none. `ERR_BAD_APP`: the application doesn't run;
/// `ERR_INVALID_HANDLE`: no such handle is given; `ERR_NO_ACCESS`: the handle is another application's.
#[tactic(auto, unfolding(tbl_model::specs::Sharing::unregister_effect))]
pub fn unregister(
    tables: &mut Tables,
    pending: &mut Pending,
    apps: &Apps,
    app: u8,
    handle: u16,
) -> Answer
    ensures { GivesUp tables.old tables.new pending.old pending.new (λ s next. s.apps ≡ apps.now → unregister_effect s app handle ≡ answered_left s result next) }
{
    if apps.name(app).is_none() {
        return Answer::plain(Status::ERR_BAD_APP);
    }
    let Some(_holder) = tables.app_of(handle) else {
        return Answer::plain(Status::ERR_INVALID_HANDLE);
    };
    if !is_handle_of(tables, app, handle) {
        return Answer::plain(Status::ERR_NO_ACCESS);
    }
    give_up(tables, pending, handle);
    Answer::plain(Status::SUCCESS)
}

/// Whether the handle is this application's.
#[tactic(auto, using(crate::proofs::GivenUp::is_holder))]
fn is_handle_of(tables: &Tables, app: u8, handle: u16) -> bool
    ensures { result ≡ is_handle_of app (handle_at tables.now handle) }
{
    tables.app_of(handle) == Some(app)
}

/// Gives a handle up if it is this application's.
fn give_up_if(tables: &mut Tables, pending: &mut Pending, app: u8, handle: u16)
    ensures { GivesUp tables.old tables.new pending.old pending.new (λ s next. give_up_if app s handle ≡ next) }
{
    if !is_handle_of(tables, app, handle) {
        return;
    }
    give_up(tables, pending, handle);
}

/// Gives up the handles of an application, one after another, and so its tables.
fn give_up_all(tables: &mut Tables, pending: &mut Pending, app: u8)
    ensures { GivesUp tables.old tables.new pending.old pending.new (λ s next. without_handles_of app s ≡ next) }
{
    for handle in 0..tables.handle_limit() {
        give_up_if(tables, pending, app, handle);
    }
}

/// An application ends (`CFE_ES_ExitApp`, which calls Table Services' `CFE_TBL_CleanUpApp`): its handles are given back, its
/// tables go with all that is pending for them, its validation functions are dropped, and its name is free again. What is
/// another application's stays. `ERR_BAD_APP`: the application doesn't run.
#[tactic(auto, unfolding(tbl_model::specs::Sharing::exit_effect))]
pub fn app_exit<C: Validator>(
    tables: &mut Tables,
    pending: &mut Pending,
    kit: &mut Kit<C>,
    apps: &mut Apps,
    app: u8,
) -> Answer
    ensures gone { GivesUp tables.old tables.new pending.old pending.new
        (λ s next. s.apps ≡ apps.old → s.kit ≡ owners kit.old → exit_effect s app ≡ answered_left s result (record next { apps = apps.new; kit = owners kit.new })) }
    ensures kit { kit.new ≡ (if is_success result.status then dropped app kit.old else kit.old) }
{
    if apps.name(app).is_none() {
        return Answer::plain(Status::ERR_BAD_APP);
    }
    // The tables go before the functions that judge them: no table is ever left without its function.
    give_up_all(tables, pending, app);
    kit.drop_app(app);
    apps.end(app);
    Answer::plain(Status::SUCCESS)
}

//! Images are judged, and what was pending for them is done.

ghost use Rattle.std.specs.Prelude.{◌≡◌, ◌<◌, ◌++◌, [], ◌∷◌, length, IsSome};
ghost use Rattle.std.specs.Option.{ForSome};
ghost use Rattle.tbl_model.specs.Tables.{table_at};
ghost use Rattle.tbl_model.specs.Fit.{HasImage};
ghost use Rattle.tbl_model.specs.Telemetry.{finished};
ghost use Rattle.tbl_model.specs.Validations.{judged_image};
ghost use Rattle.request_effects.specs.Reports.{most_events};
ghost use Rattle.update_requests.specs.Judging.{IsReady, Judges, concluded};

use desk::{Desk, named, validator};
use request_effects::Report;
use tbl_model::TelemetryEvent;
use tbl_outside::Validator;

/// A validation of an image of the table of a row comes to its end with this verdict, and isn't pending any more. Verdict 0 marks the open
/// load as validated, another one takes the mark away. The last image has no mark: it is active whatever the verdict on it is.
pub(crate) fn conclude<C: Validator>(
    desk: &mut Desk<C>,
    report: &mut Report,
    row: u8,
    active: bool,
    verdict: i32,
)
    requires table { IsSome (table_at desk.old.tables row) }
    requires image { ForSome (table_at desk.old.tables row) (λ t. HasImage t active) }
    requires events { length report.old.events < most_events }
    ensures desk { desk.new ≡ concluded row active verdict desk.old }
    ensures report { ForSome (table_at desk.old.tables row) (λ t.
        report.new ≡ record report.old { events = report.old.events ++ finished row active t (judged_image t active) verdict ∷ [] }) }
{
    let Some(check) = desk.tables.keep_check_word(row, active) else {
        unreachable!();
    };
    report.add_event(TelemetryEvent::Finished {
        row,
        active,
        check,
        verdict,
        name: named(&desk.tables, row).name,
    });
    if !active {
        desk.tables.set_checked(row, verdict == 0);
    }
    desk.pending.drop_pair(row, active);
}

/// The validation of this image of the table of a row is done, if it is pending. The verdict.
pub(crate) fn validate_pending<C: Validator>(
    desk: &mut Desk<C>,
    report: &mut Report,
    row: u8,
    active: bool,
) -> Option<i32>
    requires table { IsSome (table_at desk.old.tables row) }
    requires ready { IsReady C.Validator 1 desk.old }
    requires events { length report.old.events < most_events }
    ensures { Judges C.Validator (row, active) result desk.old desk.new report.old report.new }
{
    if !desk.pending.has(row, active) {
        return None;
    }
    let function = validator(&desk.tables, row);
    let Some(image) = desk.tables.image(row, active) else {
        unreachable!();
    };
    let Some(verdict) = desk.kit.judge(function, image) else {
        unreachable!();
    };
    conclude(desk, report, row, active, verdict);
    Some(verdict)
}

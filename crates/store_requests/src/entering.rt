//! How a critical table is entered into the registry, by how the calls for its block ended.

ghost use Rattle.std.specs.Prelude.{◌≡◌, ◌<◌, length};
ghost use Rattle.cds_layout.specs.Restores.{words};
ghost use Rattle.sharing.specs.Registering.{planned, IsPlan};
ghost use Rattle.store_requests.specs.Called.{CanKeep, IsFresh};
ghost use Rattle.store_requests.specs.Entering.{EntersBroken, EntersRestored, EntersReserved, EntersWithout};

use crate::effect::Effect;
use crate::notes::{RestoreNote, done, note_broken, note_torn};
use buffer_pairs::Image;
use cds_store::{BankFault, ReserveFault, RestoreFault};
use sharing::{register, register_uncritical};
use tbl_kinds::{Answer, Note, Outside, Status};
use tbl_registry::{NewTable, Tables};

/// A call for the block of a table broke off. If the bank failed in it, the table is registered and isn't critical, so that an application
/// can run without the store.
pub(crate) fn lost(
    tables: &mut Tables,
    app: u8,
    plan: NewTable,
    fault: BankFault,
    mut note: Box<Outside>,
) -> Effect
    requires plan { IsPlan tables.old plan }
    ensures broken { EntersBroken tables.old tables.new (planned tables.old app plan) result fault note.value.note }
{
    note_broken(&mut note, fault);
    let answer = match fault {
        BankFault::Fault { .. } => register_uncritical(tables, app, plan),
        BankFault::Stopped { .. } => Answer::plain(Status::INFO_STOPPED),
    };
    Effect::noted(answer, Note::of(note))
}

// ---- a restore

/// The restore of its block gave no image: either the block was read and has none, or the bank failed.
fn not_restored(
    tables: &mut Tables,
    app: u8,
    plan: NewTable,
    fault: RestoreFault,
    note: Box<Outside>,
) -> Effect
    requires plan { IsPlan tables.old plan }
    requires fresh { IsFresh note }
    ensures enters { EntersWithout tables.old tables.new (planned tables.old app plan) result (words fault) }
{
    match fault.words() {
        Some(words) => {
            let answer = register(tables, app, plan, Status::SUCCESS);
            Effect::noted(answer, note_torn(note, words))
        }
        None => {
            let fault = BankFault::Fault {
                gate: false,
                old: false,
            };
            lost(tables, app, plan, fault, note)
        }
    }
}

/// The restore of its block ended so.
pub(crate) fn restored(
    tables: &mut Tables,
    app: u8,
    mut plan: NewTable,
    ended: Result<(), RestoreFault>,
    image: Image,
    note: RestoreNote,
) -> Effect
    requires plan { IsPlan tables.old plan }
    requires sized { length image ≡ plan.size }
    requires room { CanKeep (length image) note }
    ensures enters { EntersRestored tables.old tables.new (planned tables.old app plan) result ended image }
{
    match ended {
        // The table begins with the image that its block gave.
        Ok(()) => {
            let note = note.given(image.bytes());
            plan.first = Some(image);
            let answer = register(tables, app, plan, Status::INFO_RECOVERED_TBL);
            Effect::noted(answer, note)
        }
        Err(fault) => not_restored(tables, app, plan, fault, note.note),
    }
}

// ---- a reservation

/// How the reservation of its block went, which is the last call of the request.
pub(crate) fn reserved(
    tables: &mut Tables,
    app: u8,
    plan: NewTable,
    made: Result<u8, ReserveFault>,
    note: Box<Outside>,
) -> Effect
    requires plan { IsPlan tables.old plan }
    requires done { note.value.note.done < 255 }
    ensures reserved { EntersReserved tables.old tables.new (planned tables.old app plan) result made note.value.note }
{
    match made {
        Ok(_) => done(register(tables, app, plan, Status::SUCCESS), note),
        Err(ReserveFault::Bank(fault)) => lost(tables, app, plan, fault, note),
        Err(ReserveFault::NoRoom) => {
            Effect::noted(register_uncritical(tables, app, plan), Note::of(note))
        }
    }
}

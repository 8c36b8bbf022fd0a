//! Plays a drill, and writes the line that sums it up.

ghost use Rattle.std.specs.Prelude.{◌≡◌, ◌≢◌, ◌⊎◌, ℕ, ◌+◌, ◌≤◌, Option, List, [], ◌++◌, length, false, true};
ghost use Rattle.std.specs.List.{AllByRecursion};
ghost use Rattle.tbl_kinds.specs.Places.{bank_size};
ghost use Rattle.tbl_kinds.specs.Records.{Pair, IsRecord, record_limit};
ghost use Rattle.tbl_kinds.specs.Transcript.{pairs_of};
ghost use Rattle.tbl_history.specs.Serving.{Continues};
ghost use Rattle.tbl_stream.specs.Finishing.{status_of};
ghost use Rattle.tbl_stream.specs.Opening.{MayStart, opening_by};
ghost use Rattle.tbl_stream.specs.Standing.{TellsBoot};
ghost use Rattle.tbl_stream.specs.Writing.{taken_of};
ghost use Rattle.tbl_stream.specs.declared.standing.Standing.TheVariants.{Open};
ghost use Rattle.tbl_top.specs.Drilling.{Drills, IsOfScript, summary, unread};
ghost use Rattle.tbl_top.specs.Listing.{TellsText};

use crate::listing::write_text;
use crate::stepping::step;
use crate::summary::sum_up;
use std::alloc::Global;
use tbl_core::Core;
use tbl_drill::{Scripted, drill_session};
use tbl_history::start;
use tbl_kinds::{Admit, Memory};
use tbl_outside::{Back, Bank, Sink, Validator};
use tbl_stream::{NO_MEMORY, Service, Standing, end_status, unbegun_status};

/// Plays a script to its end, or to the request with which a boot ended the service, or for which memory ran out.
fn play_script<B: Bank, C: Validator>(core: &mut Core<B, C>, script: &mut Scripted) -> Standing
    requires live { core.old.state.ended ≡ false }
    requires records { AllByRecursion IsRecord script.old }
    requires few { length core.old.entries + length script.old ≤ record_limit }
    ensures known { IsOfScript result }
    ensures plays { (left : List Pair) × (pairs_of core.old.entries ++ script.old ≡ pairs_of core.new.entries ++ left) × (result ≡ Open → left ≡ []) }
    ensures continues { Continues B.Bank C.verdict core.old core.new }
    ensures boot { TellsBoot result core.new.state.ended core.new.entries }
{
    'records: while let Some((actor, request)) = script.next() {
        match step(core, actor, request) {
            Err(Memory) => return Standing::Memory,
            Ok(Some(ending)) => return ending,
            Ok(None) => {}
        }
    }
    Standing::Open
}

/// Writes the line of a session that was played, and answers the status.
fn tell_summary<B: Bank, C: Validator, K: Sink>(
    alloc: Global,
    core: &Core<B, C>,
    standing: Standing,
    sink: &mut K,
) -> u8
    requires known { IsOfScript standing }
    ensures told { TellsText result (summary core.now.entries) (taken_of K.Sink sink.old) (taken_of K.Sink sink.new) }
    ensures played { standing ≡ Open → (result ≡ 0) ⊎ (result ≡ 1) ⊎ (result ≡ 4) }
    ensures ended { standing ≢ Open → result ≡ status_of standing false true }
{
    match standing {
        Standing::Open => match sum_up(alloc, core.history()) {
            Ok(line) => write_text(&line, sink),
            Err(Memory) => NO_MEMORY,
        },
        other => end_status(other, false, true),
    }
}

/// Plays a drill: boots over the bank, plays the session of this seed, and writes its line if all of it was played.
pub(crate) fn run_drill<K: Sink, B: Bank, C: Validator>(
    seed: u64,
    rounds: u32,
    sink: &mut K,
    service: Service<B, C>,
    admit: Admit,
) -> (u8, B)
    requires may_start { MayStart B.Bank C.Validator service }
    requires few { 9 + rounds ≤ record_limit }
    ensures drill { (left : Option (List ℕ)) (faults : ℕ) → Drills seed rounds B.Bank C.verdict (opening_by B.Bank service admit) (unread K.Sink left faults sink.old sink.new result) }
    ensures room { bank_size ≤ B.size result.1 }
{
    let Service { alloc, bank, kit } = service;
    let Ok(mut script) = drill_session(alloc, seed, rounds) else {
        return (NO_MEMORY, bank);
    };
    match start(alloc, bank, kit, admit) {
        Err(Back { cause, bank }) => (unbegun_status(cause), bank),
        Ok(mut core) => {
            let standing = play_script(&mut core, &mut script);
            let status = tell_summary(alloc, &core, standing, sink);
            (status, core.end())
        }
    }
}

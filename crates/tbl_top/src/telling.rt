//! Writes the transcript of a session that was played before its first entry was written.

ghost use Rattle.std.specs.Prelude.{◌≡◌, ◌≤◌, All, length};
ghost use Rattle.std.specs.List.{AllByRecursion};
ghost use Rattle.tbl_kinds.specs.Records.{IsRecord, record_limit};
ghost use Rattle.tbl_kinds.specs.Transcript.{pairs_of, offset_of};
ghost use Rattle.tbl_core.specs.Log.{IsSmall};
ghost use Rattle.tbl_crew.specs.CrewView.{TellsFault};
ghost use Rattle.tbl_stream.specs.Finishing.{FinishesAs};
ghost use Rattle.tbl_stream.specs.Places.{end_of};
ghost use Rattle.tbl_stream.specs.Standing.{IsOfInput};
ghost use Rattle.tbl_stream.specs.Writing.{taken_of};
ghost use Rattle.tbl_top.specs.Telling.{TellsCrew, WroteAll, standing_behind};

use session_records::body_len;
use tbl_core::{Core, StepFault};
use tbl_kinds::Entry;
use tbl_outside::{Bank, Sink, Validator};
use tbl_stream::{Standing, finish, write};

/// The length of a record's head.
const HEAD_LENGTH: usize = 4;

/// Writes each of these entries; None if the sink took all of them.
fn tell_all<K: Sink>(entries: &[Entry], out: &mut Vec<u8>, sink: &mut K) -> Option<Standing>
    requires small { All IsSmall entries.now }
    requires few { length entries.now ≤ record_limit }
    ensures wrote { WroteAll result entries.now (taken_of K.Sink sink.old) (taken_of K.Sink sink.new) }
    ensures count { K.faults sink.old ≤ K.faults sink.new }
{
    'entries: for place in 0..entries.len() {
        if let Some(stop) = write(out, place as u32, &entries[place], sink) {
            return Some(stop);
        }
    }
    None
}

/// The standing of a session after what its crew played.
pub(crate) fn standing_behind(fault: Option<StepFault>, read: Standing) -> Standing
    ensures { result ≡ standing_behind fault read }
{
    match fault {
        None => read,
        Some(StepFault::Memory) => Standing::Memory,
        Some(StepFault::BootFault) => Standing::BootFault,
        Some(StepFault::BootStopped) => Standing::BootStopped,
    }
}

/// Writes what a crew played, and answers the standing of the session after it.
pub(crate) fn tell_crew<B: Bank, C: Validator, K: Sink>(
    core: &Core<B, C>,
    out: &mut Vec<u8>,
    fault: Option<StepFault>,
    read: Standing,
    sink: &mut K,
) -> Standing
    requires input { IsOfInput read }
    requires boot { TellsFault fault core.now }
    requires few { length core.now.entries ≤ record_limit }
    ensures told { TellsCrew fault read result core.now (taken_of K.Sink sink.old) (taken_of K.Sink sink.new) }
    ensures count { K.faults sink.old ≤ K.faults sink.new }
{
    match tell_all(core.history(), out, sink) {
        None => standing_behind(fault, read),
        Some(stop) => stop,
    }
}

/// How many bytes the records of these entries have.
fn offset_of(entries: &[Entry]) -> u32
    requires each { AllByRecursion IsRecord (pairs_of entries.now) }
    requires few { length entries.now ≤ record_limit }
    ensures { result ≡ offset_of entries.now }
{
    let mut offset = 0;
    'entries: for entry in entries {
        offset += (HEAD_LENGTH + body_len(&entry.request)) as u32;
    }
    offset
}

/// Writes the end record after these entries, unless one of them wasn't written whole, and answers the status of the session.
pub(crate) fn finish_crew<B: Bank, C: Validator, K: Sink>(
    core: &Core<B, C>,
    standing: Standing,
    read_failed: bool,
    is_whole: bool,
    sink: &mut K,
) -> u8
    requires each { AllByRecursion IsRecord (pairs_of core.now.entries) }
    requires few { length core.now.entries ≤ record_limit }
    ensures ends { FinishesAs standing read_failed is_whole result (λ status. end_of status core.now.entries) (taken_of K.Sink sink.old) (taken_of K.Sink sink.new) }
    ensures count { K.faults sink.old ≤ K.faults sink.new }
{
    let entries = core.history();
    let ended = (entries.len() as u32, offset_of(entries));
    finish(standing, read_failed, is_whole, ended, sink)
}

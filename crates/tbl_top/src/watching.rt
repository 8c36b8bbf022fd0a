//! Plays the records of an input with a thread for each actor, and reports the images that application 16 got.

ghost use Rattle.std.specs.Prelude.{◌≡◌, ◌≤◌, [], IfOk, IfErr};
ghost use Rattle.tbl_kinds.specs.Places.{bank_size};
ghost use Rattle.tbl_outside.specs.Streams.{ReadsToEnd};
ghost use Rattle.table_watch.specs.Report.{report};
ghost use Rattle.tbl_session.specs.Openings.{Opening};
ghost use Rattle.tbl_session.specs.Session.{ran};
ghost use Rattle.tbl_history.specs.Serving.{Serves};
ghost use Rattle.tbl_stream.specs.Finishing.{status_of};
ghost use Rattle.tbl_stream.specs.Opening.{FailsToStart, MayStart, opening_by};
ghost use Rattle.tbl_stream.specs.Standing.{all_written, way_of};
ghost use Rattle.tbl_stream.specs.Writing.{taken_of};
ghost use Rattle.tbl_stream.specs.declared.standing.Standing.TheVariants.{Open};
ghost use Rattle.tbl_top.specs.Collecting.{HasTaken};
ghost use Rattle.tbl_top.specs.Listing.{TellsText};
ghost use Rattle.tbl_top.specs.Starting.{HasBegun, IsFresh};
ghost use Rattle.tbl_top.specs.Watching.{ReportsAs, fault_of};
ghost use Rattle.tbl_top.specs.Words.{Outcome};
ghost use Rattle.tbl_top.specs.declared.words.Word.TheVariants.{Watch as WatchWord};

use crate::collecting::Collector;
use crate::listing::write_text;
use crate::telling::standing_behind;
use std::alloc::Global;
use std::sync::Wait;
use std::thread::Threads;
use table_watch::Watch;
use tbl_core::{Core, StartFault, StepFault};
use tbl_crew::{WatchEnd, crew_watched};
use tbl_history::start;
use tbl_kinds::{Admit, Memory};
use tbl_outside::{Back, Bank, Gate, Sink, Source, Validator};
use tbl_stream::{DONE, NO_MEMORY, Service, Standing, end_status, unbegun_status};

/// The fault as which what ended a watched crew counts.
fn fault_of(end: Option<WatchEnd>) -> Option<StepFault>
    ensures { result ≡ fault_of end }
{
    match end {
        None => None,
        Some(WatchEnd::Step(cause)) => Some(cause),
        Some(WatchEnd::Memory) => Some(StepFault::Memory),
    }
}

/// Writes the report if all was played to the end of the input, and answers the status.
fn tell_report<K: Sink>(
    watch: &Watch,
    standing: Standing,
    read_failed: bool,
    is_whole: bool,
    sink: &mut K,
) -> u8
    requires known { way_of standing ≡ all_written }
    ensures told { TellsText result (report watch.now) (taken_of K.Sink sink.old) (taken_of K.Sink sink.new) }
    ensures ends { ReportsAs (status_of standing read_failed is_whole) result }
    ensures count { K.faults sink.old ≤ K.faults sink.new }
{
    let status = end_status(standing, read_failed, is_whole);
    if status != DONE {
        return status;
    }
    match watch.text() {
        Ok(report) => write_text(&report, sink),
        Err(Memory) => NO_MEMORY,
    }
}

/// A session with a watcher before anything was read.
#[derive(Drop)]
struct Begun<B: Bank, C: Validator> {
    alloc: Global,
    core: Core<B, C>,
    collector: Collector,
    watch: Watch,
}

/// Reads the records of an input, plays them with a thread for each actor, and writes the report. The status, and the core as it is.
fn play_watched<
    R: Threads + Wait + Sync,
    B: Bank + Send,
    C: Validator + Send,
    S: Source,
    K: Sink,
    G: Gate + Sync,
>(rt: &R, begun: Begun<B, C>, source: &mut S, sink: &mut K, gate: &G) -> (u8, Core<B, C>)
    requires begun { HasBegun B.Bank C.verdict begun.core }
    requires fresh { HasTaken Open [] 0 [] begun.collector }
    requires unwatched { begun.watch ≡ [] }
    ensures outcome { (o : Opening B C) → Serves B.Bank C.verdict o begun.core
        → Outcome WatchWord B.Bank C.verdict o (ran S.Source K.Sink (source.old, sink.old) (source.new, sink.new) (result.0, result.1.state.store.bank)) }
    ensures once { ReadsToEnd (S.how_far source.old) (S.how_far source.new) }
{
    let Begun {
        alloc,
        core,
        mut collector,
        watch,
    } = begun;
    let (read, read_failed) = collector.read_all(source);
    let is_whole = collector.is_whole();
    let (core, watch, end) = crew_watched(rt, alloc, core, collector.scripts(), gate, watch);
    let standing = standing_behind(fault_of(end), read);
    let status = tell_report(&watch, standing, read_failed, is_whole, sink);
    (status, core)
}

/// What a session with a watcher needs of memory before it begins.
fn make_both(alloc: Global) -> Result<(Collector, Watch), Memory>
    ensures fresh { IfOk result (λ both. HasTaken Open [] 0 [] both.0) }
    ensures unwatched { IfOk result (λ both. both.1 ≡ []) }
{
    Ok((Collector::make(alloc)?, Watch::make(alloc)?))
}

/// A session before anything was read, over a service at its start. An error gives the bank back.
fn begin_watch<B: Bank, C: Validator>(
    service: Service<B, C>,
    admit: Admit,
) -> Result<Begun<B, C>, Back<StartFault, B>>
    requires may_start { MayStart B.Bank C.Validator service }
    ensures begun { IfOk result (λ begun. IsFresh B.Bank C.verdict (opening_by B.Bank service admit) begun.core) }
    ensures fresh { IfOk result (λ begun. HasTaken Open [] 0 [] begun.collector) }
    ensures unwatched { IfOk result (λ begun. begun.watch ≡ []) }
    ensures err { IfErr result (λ back. FailsToStart B.Bank service.bank back.cause back.bank) }
{
    let Service { alloc, bank, kit } = service;
    match make_both(alloc) {
        Err(_) => Err(Back {
            cause: StartFault::Memory,
            bank,
        }),
        Ok((collector, watch)) => Ok(Begun {
            alloc,
            core: start(alloc, bank, kit, admit)?,
            collector,
            watch,
        }),
    }
}

/// Plays a session with a thread for each actor, and reports the images that application 16 got.
pub(crate) fn run_watch<
    R: Threads + Wait + Sync,
    B: Bank + Send,
    C: Validator + Send,
    S: Source,
    K: Sink,
    G: Gate + Sync,
>(rt: &R, source: &mut S, sink: &mut K, service: Service<B, C>, admit: Admit, gate: &G) -> (u8, B)
    requires may_start { MayStart B.Bank C.Validator service }
    ensures outcome { Outcome WatchWord B.Bank C.verdict (opening_by B.Bank service admit) (ran S.Source K.Sink (source.old, sink.old) (source.new, sink.new) result) }
    ensures once { ReadsToEnd (S.how_far source.old) (S.how_far source.new) }
    ensures room { bank_size ≤ B.size result.1 }
{
    match begin_watch(service, admit) {
        Err(Back { cause, bank }) => (unbegun_status(cause), bank),
        Ok(begun) => {
            let (status, core) = play_watched(rt, begun, source, sink, gate);
            (status, core.end())
        }
    }
}

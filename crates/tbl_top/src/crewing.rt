//! Plays the records of an input with a thread for each actor.

ghost use Rattle.std.specs.Prelude.{◌≡◌, ◌≤◌, [], IfOk, IfErr};
ghost use Rattle.tbl_kinds.specs.Places.{bank_size};
ghost use Rattle.tbl_outside.specs.Streams.{ReadsToEnd};
ghost use Rattle.tbl_session.specs.Openings.{Opening};
ghost use Rattle.tbl_session.specs.Session.{ran};
ghost use Rattle.tbl_history.specs.Serving.{Serves};
ghost use Rattle.tbl_stream.specs.Opening.{FailsToStart, MayStart, opening_by};
ghost use Rattle.tbl_stream.specs.declared.standing.Standing.TheVariants.{Open};
ghost use Rattle.tbl_top.specs.Collecting.{HasTaken};
ghost use Rattle.tbl_top.specs.Starting.{HasBegun, IsFresh};
ghost use Rattle.tbl_top.specs.Words.{Outcome};
ghost use Rattle.tbl_top.specs.declared.words.Word.TheVariants.{Crew};

use crate::collecting::Collector;
use crate::telling::{finish_crew, tell_crew};
use std::alloc::Global;
use std::sync::Wait;
use std::thread::Threads;
use tbl_core::{Core, StartFault};
use tbl_crew::workers;
use tbl_history::start;
use tbl_kinds::{Admit, Memory};
use tbl_outside::{Back, Bank, Gate, Sink, Source, Validator};
use tbl_stream::{Service, finish_unbegun};

/// How many bytes of room the spelling of an entry has from the beginning. Longer ones take more when they come.
const SHORT_SPELLING: usize = 256;

/// A session before anything was read.
#[derive(Drop)]
struct Begun<B: Bank, C: Validator> {
    alloc: Global,
    core: Core<B, C>,
    collector: Collector,
    /// Room for the spelling of one entry.
    out: Vec<u8>,
}

/// Reads the records of an input, plays them with a thread for each actor, and writes the transcript. The status, and the
/// core as it is.
fn play_crew<
    R: Threads + Wait + Sync,
    B: Bank + Send,
    C: Validator + Send,
    S: Source,
    K: Sink,
    G: Gate + Sync,
>(rt: &R, begun: Begun<B, C>, source: &mut S, sink: &mut K, gate: &G) -> (u8, Core<B, C>)
    requires begun { HasBegun B.Bank C.verdict begun.core }
    requires fresh { HasTaken Open [] 0 [] begun.collector }
    ensures outcome { (o : Opening B C) → Serves B.Bank C.verdict o begun.core
        → Outcome Crew B.Bank C.verdict o (ran S.Source K.Sink (source.old, sink.old) (source.new, sink.new) (result.0, result.1.state.store.bank)) }
    ensures once { ReadsToEnd (S.how_far source.old) (S.how_far source.new) }
{
    let Begun {
        alloc,
        core,
        mut collector,
        mut out,
    } = begun;
    let (read, read_failed) = collector.read_all(source);
    let is_whole = collector.is_whole();
    let (core, fault) = workers::crew(rt, alloc, core, collector.scripts(), gate);
    let standing = tell_crew(&core, &mut out, fault, read, sink);
    let status = finish_crew(&core, standing, read_failed, is_whole, sink);
    (status, core)
}

/// What a session needs of memory before it begins.
fn make_both(alloc: Global) -> Result<(Collector, Vec<u8>), Memory>
    ensures fresh { IfOk result (λ both. HasTaken Open [] 0 [] both.0) }
{
    let collector = Collector::make(alloc)?;
    match Vec::with_capacity(alloc, SHORT_SPELLING) {
        Ok(out) => Ok((collector, out)),
        Err(_) => Err(Memory),
    }
}

/// A session before anything was read, over a service at its start. An error gives the bank back.
fn begin_crew<B: Bank, C: Validator>(
    service: Service<B, C>,
    admit: Admit,
) -> Result<Begun<B, C>, Back<StartFault, B>>
    requires may_start { MayStart B.Bank C.Validator service }
    ensures begun { IfOk result (λ begun. IsFresh B.Bank C.verdict (opening_by B.Bank service admit) begun.core) }
    ensures fresh { IfOk result (λ begun. HasTaken Open [] 0 [] begun.collector) }
    ensures err { IfErr result (λ back. FailsToStart B.Bank service.bank back.cause back.bank) }
{
    let Service { alloc, bank, kit } = service;
    match make_both(alloc) {
        Err(_) => Err(Back {
            cause: StartFault::Memory,
            bank,
        }),
        Ok((collector, out)) => Ok(Begun {
            alloc,
            core: start(alloc, bank, kit, admit)?,
            collector,
            out,
        }),
    }
}

/// Plays a session with a thread for each actor.
pub(crate) fn run_crew<
    R: Threads + Wait + Sync,
    B: Bank + Send,
    C: Validator + Send,
    S: Source,
    K: Sink,
    G: Gate + Sync,
>(rt: &R, source: &mut S, sink: &mut K, service: Service<B, C>, admit: Admit, gate: &G) -> (u8, B)
    requires may_start { MayStart B.Bank C.Validator service }
    ensures outcome { Outcome Crew B.Bank C.verdict (opening_by B.Bank service admit) (ran S.Source K.Sink (source.old, sink.old) (source.new, sink.new) result) }
    ensures once { ReadsToEnd (S.how_far source.old) (S.how_far source.new) }
    ensures room { bank_size ≤ B.size result.1 }
{
    match begin_crew(service, admit) {
        Err(Back { cause, bank }) => (finish_unbegun(cause, sink), bank),
        Ok(begun) => {
            let (status, core) = play_crew(rt, begun, source, sink, gate);
            (status, core.end())
        }
    }
}

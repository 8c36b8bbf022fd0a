//! A session that is fed in pieces.

ghost use Rattle.std.specs.Prelude.{◌≡◌, ◌<◌, [], false, IfOk};
ghost use Rattle.tbl_stream.specs.declared.standing.Standing.TheVariants.{Open};

use crate::ending::bank;
use shipped_kit::FirstByte;
use std::alloc::Global;
use tbl_core::{Core, Engine};
use tbl_fakes::{CalmBank, MemSink};
use tbl_kinds::Admit;
use tbl_stream::{Fed, Stream};
use test_tables::{CaseFault, Row, count_of};
use validation::Kit;

/// The most records of a session.
const RECORD_LIMIT: u32 = 32_768;

/// Feeds bytes in pieces of so many. The session stays open.
fn feed_each(
    session: &mut Stream<CalmBank, FirstByte>,
    bytes: &[u8],
    each: usize,
    sink: &mut MemSink,
) -> Result<(), CaseFault>
    requires some { 0 < each }
    requires is_open { session.old.standing ≡ Open }
    ensures is_open { IfOk result (λ _. session.new.standing ≡ Open) }
{
    'pieces: for piece in bytes.chunks(each) {
        if session.feed(piece, sink) != Fed::More {
            return Err(CaseFault::Unreadable);
        }
    }
    Ok(())
}

/// A service without validation functions, which has played nothing.
pub(crate) fn service(alloc: Global) -> Result<Core<CalmBank, FirstByte>, CaseFault>
    ensures empty { IfOk result (λ core. core.entries ≡ []) }
    ensures live { IfOk result (λ core. core.state.ended ≡ false) }
{
    let kit = Kit::make(alloc, Vec::new(alloc))?;
    let bank = bank(alloc)?;
    match Core::start(alloc, bank, kit, Admit::all()) {
        Ok(core) => Ok(core),
        Err(_) => Err(CaseFault::Memory),
    }
}

/// An engine without validation functions, which has played nothing.
fn engine(alloc: Global) -> Result<Engine<CalmBank, FirstByte>, CaseFault>
    ensures { IfOk result (λ engine. engine.state.ended ≡ false) }
{
    let kit = Kit::make(alloc, Vec::new(alloc))?;
    let bank = bank(alloc)?;
    match Engine::start(alloc, bank, kit, Admit::all()) {
        Ok(engine) => Ok(engine),
        Err(_) => Err(CaseFault::Memory),
    }
}

/// A session over such an engine.
fn session(alloc: Global) -> Result<Stream<CalmBank, FirstByte>, CaseFault>
    ensures { IfOk result (λ s. s.standing ≡ Open) }
{
    let engine = engine(alloc)?;
    match Stream::make(alloc, engine, Some(RECORD_LIMIT)) {
        Ok(session) => Ok(session),
        Err(engine) => {
            let _bank = engine.end();
            Err(CaseFault::Memory)
        }
    }
}

/// Feeds the two parts of a row in pieces of so many bytes, and compares how many bytes the sink has between them, and how
/// the session ends.
fn feed_row(
    session: &mut Stream<CalmBank, FirstByte>,
    row: &Row,
    each: usize,
    sink: &mut MemSink,
) -> Result<(), CaseFault>
    requires some { 0 < each }
    requires is_open { session.old.standing ≡ Open }
{
    feed_each(session, &row.bytes(1)?, each, sink)?;
    row.same_number(4, sink.taken().len() as u64)?;
    feed_each(session, &row.bytes(2)?, each, sink)?;
    row.same_number(5, u64::from(session.finish(false, sink)))?;
    row.same_bytes(7, sink.taken())
}

/// How many entries a session has at its end.
fn count_entries(session: Stream<CalmBank, FirstByte>) -> u64 {
    let engine = session.end();
    let count = engine.played();
    let _bank = engine.end();
    count
}

/// Feeds a session from its start, and compares how many entries its transcript has, too.
fn feed_through(row: &Row, each: usize, sink: &mut MemSink) -> Result<(), CaseFault>
    requires some { 0 < each }
{
    let mut session = session(row.alloc())?;
    let fed = feed_row(&mut session, row, each, sink);
    let entries = count_entries(session);
    fed?;
    row.same_number(6, entries)
}

/// Feeds a session in pieces of so many bytes, with room for the output of a row.
fn try_length(row: &Row, each: u32) -> Result<(), CaseFault> {
    if each == 0 {
        return Err(CaseFault::Unreadable);
    }
    let room = count_of(&row.bytes(7)?)?;
    let mut sink = MemSink::make(row.alloc(), room, &[])?;
    feed_through(row, each as usize, &mut sink)
}

/// Feeds the two parts of a row in pieces of each of the lengths that it has.
pub(crate) fn try_lengths(row: &Row) -> Result<u32, CaseFault> {
    let mut count = 0u32;
    for each in &row.numbers(3)? {
        try_length(row, *each)?;
        count = count.saturating_add(1);
    }
    Ok(count)
}

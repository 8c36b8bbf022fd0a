//! A session of the service over two banks as one.

ghost use Rattle.std.specs.Prelude.{◌<◌, ◌≤◌, ◌^◌, length, IfOk, IsTrue};
ghost use Rattle.tbl_kinds.specs.Places.{bank_size};
ghost use Rattle.tbl_core.specs.Service.{AskedBelow};
ghost use Rattle.shipped_kit.specs.Verdicts.{asked_of};

use crate::calls::{Apart, Both, both_healed};
use crate::setup::{Setup, zeros};
use crate::words::words_after;
use bank_mirror::Mirror;
use cds_layout::BANK_SIZE;
use session_records::{Next, next_record};
use shipped_kit::{Shipped, shipped_entries};
use std::alloc::Global;
use std::io;
use tbl_core::Core;
use tbl_kinds::{Actor, Admit, Bytes, Entry, Memory, Request, fits};
use tbl_outside::Bank;
use transcript::spell_entry;
use validation::Kit;

/// The service over two banks in memory as one.
type Service = Core<Both, Shipped>;

/// The most entries of a history.
const MOST_ENTRIES: usize = 32_768;

/// The kit of the shipped program.
fn shipped(alloc: Global) -> Result<Kit<Shipped>, Memory>
    ensures { IfOk result (AskedBelow asked_of 1) }
{
    Kit::make(alloc, shipped_entries(alloc)?)
}

/// Two banks of zeros, of the service's size and one more byte.
fn apart_in(alloc: Global, lines: &str) -> Result<Apart, Memory>
    ensures room { IfOk result (λ apart. bank_size ≤ length apart.first.bytes) }
    ensures larger { IfOk result (λ apart. length apart.first.bytes < length apart.second.bytes) }
{
    Ok(Apart {
        first: Setup::of(alloc, lines, "first")?.bank(alloc, zeros(alloc, BANK_SIZE)?)?,
        second: Setup::of(alloc, lines, "second")?.bank(alloc, zeros(alloc, BANK_SIZE + 1)?)?,
    })
}

/// Plays a request. The answer is whether a further one may follow.
fn step(core: &mut Service, actor: Actor, request: Request) -> bool {
    if !fits(actor, &request) || !core.is_live() || core.history().len() >= MOST_ENTRIES {
        return false;
    }
    core.step(actor, request).is_ok()
}

/// Plays the record at the front of an input, and tells its length: 0 where none was played.
fn step_front(alloc: Global, core: &mut Service, input: &[u8]) -> usize {
    let mut request = Request::Exit;
    match next_record(alloc, input, &mut request) {
        Ok(Next::Item { actor, used }) => if step(core, actor, request) { used } else { 0 },
        _ => 0,
    }
}

/// Plays records that stand one after the other.
fn step_all(alloc: Global, core: &mut Service, records: &[u8]) {
    let mut at = 0usize;
    for _ in 0..records.len() {
        let Some(rest) = records.get(at..) else {
            return;
        };
        let used = step_front(alloc, core, rest);
        if used == 0 {
            return;
        }
        at = at.saturating_add(used);
    }
}

/// Appends the spelling of the entry at a place.
fn append_entry(out: &mut Bytes, place: u32, entry: &Entry) -> Result<(), Memory>
    requires bytes { length entry.now.reply.bytes.list < 2 ^ 32 }
    requires packets { length entry.now.reply.packets.list < 2 ^ 32 }
{
    let mut room = Vec::new(out.allocator());
    let spelling = spell_entry(&mut room, place, entry)?;
    out.reserve(spelling.len())?;
    out.append(spelling);
    Ok(())
}

/// The spellings of all entries.
fn entries_of(alloc: Global, core: &Service) -> Result<Bytes, Memory> {
    let mut out = Bytes::make(alloc, 0)?;
    for (place, entry) in core.history().iter().enumerate() {
        let Ok(place) = u32::try_from(place) else {
            return Err(Memory);
        };
        append_entry(&mut out, place, entry)?;
    }
    Ok(out)
}

/// Plays a session and tells its entries.
fn tell_entries<R: Print + AllocGlobal>(
    rt: &R,
    core: &mut Service,
    records: &[u8],
) -> io::Result<()> {
    step_all(rt.alloc(), core, records);
    match entries_of(rt.alloc(), core) {
        Ok(entries) => println!(rt; "entries {}", hex::encode(rt.alloc(), entries.bytes())?),
        Err(Memory) => println!(rt; "out of memory"),
    }
}

/// Starts the service over two banks as one, plays a session, and tells its entries.
fn played<R: Print + AllocGlobal>(
    rt: &R,
    both: Both,
    kit: Kit<Shipped>,
    records: &[u8],
) -> (Both, io::Result<()>)
    requires room { bank_size ≤ length both.pair.first.bytes }
    requires kit { AskedBelow asked_of 1 kit }
{
    match Core::start(rt.alloc(), both, kit, Admit::all()) {
        Ok(mut core) => {
            let told = tell_entries(rt, &mut core, records);
            (core.end(), told)
        }
        Err(back) => (back.bank, println!(rt; "no start")),
    }
}

/// Opens two banks as one, plays a session, and tells which of them is in afterwards.
fn play_over<R: Print + AllocGlobal>(
    rt: &R,
    apart: Apart,
    records: &[u8],
) -> (Apart, io::Result<()>)
    requires room { bank_size ≤ length apart.first.bytes }
    requires larger { length apart.first.bytes < length apart.second.bytes }
{
    let Apart { first, second } = apart;
    let kit = match shipped(rt.alloc()) {
        Ok(kit) => kit,
        Err(Memory) => return (Apart { first, second }, println!(rt; "out of memory")),
    };
    match Mirror::open(rt.alloc(), first, second) {
        Ok(both) => {
            let (both, told) = played(rt, both, kit, records);
            let in_use = both.in_use();
            let (first, second) = both.end();
            (
                Apart { first, second },
                told.and_then(|_| println!(rt; "{in_use:?}")),
            )
        }
        Err(back) => {
            let told = println!(rt; "open -> {:?}", back.cause);
            let (first, second) = (back.first, back.second);
            (Apart { first, second }, told)
        }
    }
}

/// Whether the first is as large as the service asks, and the second larger.
fn is_room(apart: &Apart) -> bool
    ensures room { IsTrue result → bank_size ≤ length apart.now.first.bytes }
    ensures larger { IsTrue result → length apart.now.first.bytes < length apart.now.second.bytes }
{
    let size = apart.first.bytes().len();
    BANK_SIZE as usize <= size && size < apart.second.bytes().len()
}

/// Plays a session over the same bytes, with banks that never fail, where both are as large as the service asks.
fn play_again<R: Print + AllocGlobal>(rt: &R, apart: &Apart, records: &[u8]) -> io::Result<()> {
    match both_healed(rt.alloc(), apart) {
        Ok(apart) if is_room(&apart) => play_over(rt, apart, records).1,
        _ => println!(rt; "out of memory"),
    }
}

/// Plays the session of the line `records`, and then over the same bytes, with banks that never fail, that of `again`.
pub(crate) fn play<R: Print + AllocGlobal>(rt: &R, lines: &str) -> io::Result<()> {
    let alloc = rt.alloc();
    let Ok(apart) = apart_in(alloc, lines) else {
        return println!(rt; "out of memory");
    };
    let (apart, told) = play_over(rt, apart, &words_after(lines, "records").bytes(alloc));
    told?;
    let again = words_after(lines, "again").bytes(alloc);
    if again.is_empty() {
        return Ok(());
    }
    play_again(rt, &apart, &again)
}

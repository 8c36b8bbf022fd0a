//! A session over two banks as one while something goes wrong with one of them: both are opened again afterwards, and each critical table
//! is asked for what comes back.

ghost use Rattle.std.specs.Prelude.{◌≡◌, ◌+◌, ◌<◌, ◌≤◌, ◌^◌, length, IfOk};
ghost use Rattle.tbl_kinds.specs.Places.{bank_size};
ghost use Rattle.tbl_core.specs.Service.{AskedBelow};
ghost use Rattle.shipped_kit.specs.Verdicts.{asked_of};

use crate::plan::Plan;
use crate::play::{Fault, Left, MOST_ENTRIES, Room, Scenario, left_in, shipped, step_all};
use crate::recovery::come_back;
use crate::tables::{Back, Table};
use crate::tries::Runs;
use crate::trouble::Trouble;
use bank_mirror::{Alone, Mirror, STALE};
use cds_layout::BANK_SIZE;
use shipped_kit::Shipped;
use std::alloc::Global;
use tbl_core::Core;
use tbl_fakes::{Break, MemBank};
use tbl_kinds::{Admit, Memory};
use validation::Kit;

/// How many writes the copy of an opening makes at most.
const COPIES: u32 = 128;

/// How many reads of a bank fail.
const BAD_READS: usize = 4_096;

/// Two banks in memory as one.
type Both = Mirror<MemBank, MemBank>;

/// Two banks in memory, apart.
#[derive(Drop)]
struct Apart {
    first: MemBank,
    second: MemBank,
}

/// The numbers of the reads that fail, from this one on.
fn bad_reads(alloc: Global, unread: Option<u32>) -> Result<Vec<u32>, Fault> {
    let mut reads = Vec::new(alloc);
    if let Some(first) = unread {
        for at in 0..BAD_READS as u32 {
            reads.push(first.saturating_add(at))?;
        }
    }
    Ok(reads)
}

/// A bank of these bytes, with room in its record for a session and an opening.
fn bank_of(
    alloc: Global,
    image: &[u8],
    breaks: &[Break],
    unread: Option<u32>,
    room: Room,
) -> Result<MemBank, Fault>
    requires { length image.now ≤ bank_size + 1 }
    ensures { IfOk result (λ bank. length bank.bytes ≡ length image.now) }
{
    let bytes = Vec::from_slice(alloc, image)?;
    let bad = bad_reads(alloc, unread)?;
    let writes = room.writes.saturating_add(COPIES);
    let written = room.bytes.saturating_add(BANK_SIZE);
    Ok(MemBank::make(alloc, bytes, breaks, &bad, writes, written)?)
}

/// Two banks that hold what a session begins with, the second with a mark after it, and what goes wrong with them.
fn troubled(scenario: &Scenario<'_>, trouble: Trouble) -> Result<Apart, Fault>
    ensures room { IfOk result (λ apart. bank_size ≤ length apart.first.bytes) }
    ensures larger { IfOk result (λ apart. length apart.first.bytes < length apart.second.bytes) }
{
    let (alloc, room) = (scenario.alloc, scenario.room);
    if scenario.store.len() != BANK_SIZE as usize {
        return Err(Fault::Full);
    }
    let mut marked = Vec::from_slice(alloc, scenario.store)?;
    marked.push(0)?;
    let first = breaks(alloc, trouble.of_first())?;
    let second = breaks(alloc, trouble.of_second())?;
    Ok(Apart {
        first: bank_of(alloc, scenario.store, &first, trouble.first_unread(), room)?,
        second: bank_of(alloc, &marked, &second, trouble.second_unread(), room)?,
    })
}

/// The writes that fail: this one or none.
fn breaks(alloc: Global, dies: Option<Break>) -> Result<Vec<Break>, Fault> {
    let mut breaks = Vec::new(alloc);
    if let Some(dies) = dies {
        breaks.push(dies)?;
    }
    Ok(breaks)
}

/// Both as one, where one goes on alone. If the mark says that the first is stale there is none.
fn opened_alone(first: MemBank, second: MemBank, alone: Alone) -> Result<Both, Fault>
    requires larger { length first.bytes < length second.bytes }
    ensures room { IfOk result (λ both. length both.pair.first.bytes ≡ length first.bytes) }
{
    let place = first.bytes().len();
    if second.bytes()[place] == STALE {
        return Err(Fault::Memory);
    }
    match Mirror::open_alone(first, second, alone) {
        Ok(both) => Ok(both),
        Err(_) => Err(Fault::Memory),
    }
}

/// Both as one, and if they can't be opened one of them alone.
fn opened(alloc: Global, apart: Apart, alone: Alone) -> Result<Both, Fault>
    requires larger { length apart.first.bytes < length apart.second.bytes }
    ensures room { IfOk result (λ both. length both.pair.first.bytes ≡ length apart.first.bytes) }
{
    let Apart { first, second } = apart;
    match Mirror::open(alloc, first, second) {
        Ok(both) => Ok(both),
        Err(back) => opened_alone(back.first, back.second, alone),
    }
}

/// Plays a session over both as one, and answers how many requests were answered.
fn play_over(
    alloc: Global,
    both: Both,
    kit: Kit<Shipped>,
    records: &[u8],
) -> Result<(Both, usize), Fault>
    requires room { bank_size ≤ length both.pair.first.bytes }
    requires kit { AskedBelow asked_of 1 kit }
{
    match Core::start(alloc, both, kit, Admit::all()) {
        Ok(mut core) => {
            let played = step_all(alloc, &mut core, records, MOST_ENTRIES);
            let count = core.history().len();
            let both = core.end();
            played?;
            Ok((both, count))
        }
        Err(_) => Err(Fault::Full),
    }
}

/// Opens both as one, plays a session, and gives both back.
fn played_apart(
    alloc: Global,
    apart: Apart,
    alone: Alone,
    records: &[u8],
) -> Result<(Apart, usize), Fault>
    requires room { bank_size ≤ length apart.first.bytes }
    requires larger { length apart.first.bytes < length apart.second.bytes }
{
    let kit = shipped(alloc)?;
    let both = opened(alloc, apart, alone)?;
    let (both, count) = play_over(alloc, both, kit, records)?;
    let (first, second) = both.end();
    Ok((Apart { first, second }, count))
}

/// What both hold as one, once they are opened again, and neither fails.
fn healed(alloc: Global, apart: &Apart, played: usize, room: Room) -> Result<Left, Fault> {
    let (first, second) = (apart.first.bytes(), apart.second.bytes());
    if first.len() != BANK_SIZE as usize || second.len() != BANK_SIZE as usize + 1 {
        return Err(Fault::Full);
    }
    let first = bank_of(alloc, first, &[], None, room)?;
    let second = bank_of(alloc, second, &[], None, room)?;
    match Mirror::open(alloc, first, second) {
        Ok(both) => left_in(alloc, &both.end().0, played),
        Err(_) => Err(Fault::Memory),
    }
}

/// Whether a table lost an image: another one came back than the last that was completed in the session, or none.
fn is_lost(table: &Table, played: usize, back: Back) -> bool {
    match back {
        Back::Completed { .. } => false,
        Back::None | Back::Refused { .. } => table.completed(played).is_some(),
        Back::Broken { .. } | Back::Mixed { .. } => true,
    }
}

/// What comes back in each table after something went wrong.
#[derive(Drop)]
pub(crate) struct Death {
    pub(crate) runs: Runs,
    /// How many tables lost an image, and all of them if the session broke off.
    pub(crate) lost: usize,
}

/// Plays the session while this goes wrong.
pub(crate) fn suffer(plan: &Plan<'_>, trouble: Trouble) -> Result<Death, Fault> {
    let scenario = plan.scenario;
    let alloc = scenario.alloc;
    let apart = troubled(scenario, trouble)?;
    let (apart, played) = played_apart(alloc, apart, trouble.alone(), scenario.records)?;
    let left = healed(alloc, &apart, played, scenario.room)?;
    let behind = played.saturating_add(1);
    let mut runs = Runs::make(alloc);
    come_back(
        plan,
        left.image.as_slice(),
        behind,
        trouble.after(),
        &mut runs,
    )?;
    runs.end()?;
    let mut lost = if played == plan.history.len() {
        0usize
    } else {
        plan.tables.len()
    };
    for run in &runs.ended {
        if let Some(table) = plan.tables.get(run.table) {
            if is_lost(table, behind, run.back) {
                lost = lost.saturating_add(1);
            }
        }
    }
    Ok(Death { runs, lost })
}

// One session over banks in memory: whole, up to a record, or up to the write in which the processor is reset.
ghost use Rattle.std.specs.Prelude.{◌≡◌, ◌≤◌, ◌+◌, length, IfOk};
ghost use Rattle.tbl_kinds.specs.Places.{bank_size};
ghost use Rattle.tbl_core.specs.Service.{AskedBelow};
ghost use Rattle.shipped_kit.specs.Verdicts.{asked_of};

use session_records::{Next, next_record};
use shipped_kit::{Shipped, shipped_entries};
use std::alloc::{AllocError, AllocFailed, Global};
use tbl_core::{Core, StartFault, StepFault};
use tbl_fakes::{Break, MemBank};
use tbl_kinds::{Actor, Admit, Entry, Memory, Request, Status, fits};
use tbl_outside::{Back, Bank, Failed};
use validation::Kit;

/// How many bytes a bank has.
pub(crate) const BANK_SIZE: usize = 262_144;

/// The most entries of a history.
pub(crate) const MOST_ENTRIES: usize = 32_768;

/// The service over a bank in memory, with the validation functions of the shipped program.
pub(crate) type Service = Core<MemBank, Shipped>;

/// Why something wasn't tried to its end.
#[derive(Clone, Copy)]
pub(crate) enum Fault {
    /// Memory ran out.
    Memory,
    /// The service takes no further request.
    Full,
    /// A row couldn't be written.
    Unwritten,
}

impl From<Memory> for Fault {
    fn from(_memory: Memory) -> Fault {
        Fault::Memory
    }
}

impl From<AllocError> for Fault {
    fn from(_error: AllocError) -> Fault {
        Fault::Memory
    }
}

impl From<Failed> for Fault {
    fn from(_failed: Failed) -> Fault {
        Fault::Unwritten
    }
}

impl<T: Drop> From<AllocFailed<T>> for Fault {
    fn from(_error: AllocFailed<T>) -> Fault {
        Fault::Memory
    }
}

/// For how many writes, and for how many bytes of them, a bank has room in its record.
#[derive(Clone, Copy)]
pub(crate) struct Room {
    pub(crate) writes: u32,
    pub(crate) bytes: u32,
}

impl Room {
    /// Twice as much.
    pub(crate) fn doubled(self) -> Room {
        Room {
            writes: self.writes.saturating_mul(2),
            bytes: self.bytes.saturating_mul(2),
        }
    }
}

/// A session that is played again and again, each time over a bank of the same bytes.
#[derive(Drop)]
pub(crate) struct Scenario<'a> {
    pub(crate) alloc: Global,
    /// The bytes that a bank begins with.
    pub(crate) store: &'a [u8],
    pub(crate) records: &'a [u8],
    pub(crate) room: Room,
}

/// The validation functions of the shipped program.
pub(crate) fn shipped(alloc: Global) -> Result<Kit<Shipped>, Memory>
    ensures { IfOk result (AskedBelow asked_of 1) }
{
    Kit::make(alloc, shipped_entries(alloc)?)
}

/// A bank of these bytes.
fn bank_of(alloc: Global, image: &[u8], breaks: &[Break], room: Room) -> Result<MemBank, Memory>
    requires { length image.now ≡ bank_size }
    ensures { IfOk result (λ bank. bank_size ≤ length bank.bytes) }
{
    let bytes = Vec::from_slice(alloc, image)?;
    MemBank::make(alloc, bytes, breaks, &[], room.writes, room.bytes)
}

/// What a stop left: the bytes of the bank, and how many requests were answered, including the one in which it came; none if it came in the
/// boot at the start.
#[derive(Drop)]
pub(crate) struct Left {
    pub(crate) played: usize,
    pub(crate) image: Vec<u8>,
}

/// What a stop left in a bank.
pub(crate) fn left_in(alloc: Global, bank: &MemBank, played: usize) -> Result<Left, Fault>
    ensures image { IfOk result (λ left. left.image.items ≡ bank.now.bytes) }
    ensures played { IfOk result (λ left. left.played ≡ played) }
{
    let image = Vec::from_slice(alloc, bank.bytes())?;
    Ok(Left { played, image })
}

/// The service that starts over a bank, or what is left in the bank if it was stopped in the boot.
pub(crate) enum Started {
    Runs(Service),
    Stopped(Left),
}

/// What a boot left that was stopped.
fn stopped_in(alloc: Global, back: &Back<StartFault, MemBank>) -> Result<Started, Fault> {
    if back.cause == StartFault::Memory {
        return Err(Fault::Memory);
    }
    Ok(Started::Stopped(left_in(alloc, &back.bank, 0)?))
}

/// Starts the service over a bank.
fn start_over(alloc: Global, bank: MemBank, kit: Kit<Shipped>) -> Result<Started, Fault>
    requires bank { bank_size ≤ length bank.bytes }
    requires kit { AskedBelow asked_of 1 kit }
{
    match Core::start(alloc, bank, kit, Admit::all()) {
        Ok(core) => Ok(Started::Runs(core)),
        Err(back) => stopped_in(alloc, &back),
    }
}

/// Starts the service over a bank of these bytes, whose writes break off if the list says so.
fn start(alloc: Global, image: &[u8], breaks: &[Break], room: Room) -> Result<Started, Fault> {
    if image.len() != BANK_SIZE {
        return Err(Fault::Full);
    }
    let kit = shipped(alloc)?;
    let bank = bank_of(alloc, image, breaks, room)?;
    start_over(alloc, bank, kit)
}

/// The entry of the request that was played last.
pub(crate) fn last_entry<B: Bank>(core: &Core<B, Shipped>) -> Result<&Entry, Fault> {
    match core.history().last() {
        Some(entry) => Ok(entry),
        None => Err(Fault::Full),
    }
}

/// Plays a request. The answer is whether the service goes on after it, which it doesn't if the processor was reset in it.
fn step<B: Bank>(core: &mut Core<B, Shipped>, actor: Actor, request: Request) -> Result<bool, Fault>
    ensures added { IfOk result (λ _. length core.new.entries ≡ length core.old.entries + 1) }
{
    if !fits(actor, &request) || !core.is_live() || core.history().len() >= MOST_ENTRIES {
        return Err(Fault::Full);
    }
    match core.step(actor, request) {
        Ok(()) => Ok(last_entry(core)?.reply.status != Status::INFO_STOPPED),
        Err(StepFault::BootFault | StepFault::BootStopped) => Ok(false),
        Err(StepFault::Memory) => Err(Fault::Memory),
    }
}

/// Makes a request that isn't in the session, and gives its entry.
pub(crate) fn ask(core: &mut Service, actor: Actor, request: Request) -> Result<&Entry, Fault> {
    step(core, actor, request)?;
    last_entry(core)
}

/// Plays the record at the front of some bytes, and gives its length: 0 if there is none, or if the processor was reset in it.
fn step_front<B: Bank>(
    alloc: Global,
    core: &mut Core<B, Shipped>,
    records: &[u8],
) -> Result<usize, Fault> {
    let mut request = Request::Exit;
    match next_record(alloc, records, &mut request)? {
        Next::Item { actor, used } => Ok(if step(core, actor, request)? { used } else { 0 }),
        _ => Ok(0),
    }
}

/// Plays so many records, or those up to the one in which the processor is reset.
pub(crate) fn step_all<B: Bank>(
    alloc: Global,
    core: &mut Core<B, Shipped>,
    records: &[u8],
    most: usize,
) -> Result<(), Fault> {
    let mut at = 0usize;
    for _ in 0..most {
        let Some(rest) = records.get(at..) else {
            return Err(Fault::Full);
        };
        let used = step_front(alloc, core, rest)?;
        if used == 0 {
            return Ok(());
        }
        at = at.saturating_add(used);
    }
    Ok(())
}

/// Ends a service that nothing more is asked of.
pub(crate) fn close(core: Service) {
    let _bank = core.end();
}

/// The service after so many records of a session.
fn played_on(scenario: &Scenario<'_>, mut core: Service, most: usize) -> Result<Service, Fault> {
    match step_all(scenario.alloc, &mut core, scenario.records, most) {
        Ok(()) => Ok(core),
        Err(fault) => {
            close(core);
            Err(fault)
        }
    }
}

/// The service after the first so many records of a session.
pub(crate) fn behind(scenario: &Scenario<'_>, most: usize) -> Result<Service, Fault> {
    match start(scenario.alloc, scenario.store, &[], scenario.room)? {
        Started::Runs(core) => played_on(scenario, core, most),
        Started::Stopped(_) => Err(Fault::Full),
    }
}

/// A write in which the processor is reset after so many bytes.
fn stop_in(write: u32, after: u32) -> Break {
    Break {
        write,
        after,
        stop: true,
    }
}

/// Plays a session up to the request in which the processor is reset.
fn played_to_stop(scenario: &Scenario<'_>, core: Service) -> Result<Left, Fault> {
    let core = played_on(scenario, core, MOST_ENTRIES)?;
    let played = core.history().len();
    left_in(scenario.alloc, &core.end(), played)
}

/// Plays a session up to a write, in which the processor is reset after so many bytes. The boot after the reset is stopped
/// before its first write, so that the bank has what the reset left.
pub(crate) fn with_stop(scenario: &Scenario<'_>, write: u32, after: u32) -> Result<Left, Fault> {
    let breaks = [stop_in(write, after), stop_in(write.saturating_add(1), 0)];
    match start(scenario.alloc, scenario.store, &breaks, scenario.room)? {
        Started::Runs(core) => played_to_stop(scenario, core),
        Started::Stopped(left) => Ok(left),
    }
}

/// For a few writes, as a boot and the registration of some tables make them.
const FEW_WRITES: Room = Room {
    writes: 512,
    bytes: 32_768,
};

/// The service that starts again over what a reset left.
pub(crate) fn anew(alloc: Global, image: &[u8]) -> Result<Service, Fault> {
    match start(alloc, image, &[], FEW_WRITES)? {
        Started::Runs(core) => Ok(core),
        Started::Stopped(_) => Err(Fault::Full),
    }
}

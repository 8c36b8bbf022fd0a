//! A service, and steps of it.

ghost use Rattle.std.specs.Prelude.{◌≤◌, length, IfOk};
ghost use Rattle.tbl_kinds.specs.Places.{bank_size};
ghost use Rattle.tbl_kinds.specs.Requests.{Fits};
ghost use Rattle.tbl_core.specs.Service.{AskedBelow};
ghost use Rattle.shipped_kit.specs.Verdicts.{asked_of};

use session_records::{Next, next_record};
use shipped_kit::{Shipped, shipped_entries};
use std::alloc::Global;
use tbl_core::{Core, StartFault, StepFault};
use tbl_fakes::MemBank;
use tbl_kinds::{Actor, Admit, Memory, Request};
use test_tables::CaseFault;
use validation::Kit;

/// The service that rows are played on.
pub(crate) type Service = Core<MemBank, Shipped>;

/// The most entries of a history.
pub(crate) const MOST_ENTRIES: usize = 32_768;

/// Gives a value on. It compiles only for a core that may be sent to a thread.
fn sent<T: Send>(value: T) -> T {
    value
}

/// The kit of the shipped program.
fn shipped(alloc: Global) -> Result<Kit<Shipped>, Memory>
    ensures { IfOk result (AskedBelow asked_of 1) }
{
    Kit::make(alloc, shipped_entries(alloc)?)
}

/// Why a row has no core.
fn fault_of(cause: StartFault) -> CaseFault {
    match cause {
        StartFault::Memory => CaseFault::Memory,
        StartFault::BootFault | StartFault::BootStopped => CaseFault::Unreadable,
    }
}

/// A core at its start over a bank, with these admitted spacecraft and processors.
pub(crate) fn started(alloc: Global, bank: MemBank, admit: Admit) -> Result<Service, CaseFault>
    requires { bank_size ≤ length bank.bytes }
{
    let kit = shipped(alloc)?;
    match Core::start(alloc, bank, kit, admit) {
        Ok(core) => Ok(sent(core)),
        Err(back) => Err(fault_of(back.cause)),
    }
}

/// Plays a request. The answer is whether a further one may follow: none does where a boot in it fails or is stopped.
pub(crate) fn step(core: &mut Service, actor: Actor, request: Request) -> Result<bool, CaseFault>
    requires fits { Fits actor request }
{
    if !core.is_live() || core.history().len() >= MOST_ENTRIES {
        return Err(CaseFault::Unreadable);
    }
    match core.step(actor, request) {
        Ok(()) => Ok(true),
        Err(StepFault::BootFault | StepFault::BootStopped) => Ok(false),
        Err(StepFault::Memory) => Err(CaseFault::Memory),
    }
}

/// Plays the record at the front of an input, and tells its length: 0 at the end of the input, and where none may follow.
fn step_front(alloc: Global, core: &mut Service, input: &[u8]) -> Result<usize, CaseFault> {
    let mut request = Request::Exit;
    match next_record(alloc, input, &mut request) {
        Ok(Next::Item { actor, used }) => Ok(if step(core, actor, request)? { used } else { 0 }),
        Ok(Next::End) => Ok(0),
        Ok(_) => Err(CaseFault::Unreadable),
        Err(Memory) => Err(CaseFault::Memory),
    }
}

/// Plays records that stand one after the other, up to one after which none may follow, and tells how many stand before that.
pub(crate) fn step_all(
    alloc: Global,
    core: &mut Service,
    records: &[u8],
) -> Result<u32, CaseFault> {
    let mut rest = records;
    let mut count = 0u32;
    for _ in 0..records.len() {
        let used = step_front(alloc, core, rest)?;
        if used == 0 {
            break;
        }
        rest = rest.get(used..).ok_or(CaseFault::Unreadable)?;
        count = count.saturating_add(1);
    }
    Ok(count)
}

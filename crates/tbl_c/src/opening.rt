//! The engine of a service at its start, and the preserved memory under it.

ghost use Rattle.std.specs.Prelude.{◌≡◌, ◌<◌, ◌^◌, IfOk, length};
ghost use Rattle.tbl_kinds.specs.Places.{bank_size};
ghost use Rattle.tbl_core.specs.Service.{AskedBelow};
ghost use Rattle.handed_kit.specs.Answering.{Spoken};
ghost use Rattle.tbl_c.specs.Breaks.{breaking};
ghost use Rattle.tbl_c.specs.Serving.{IsUnopened, Opens, mute_functions};

use crate::status::{BANK_FAILED, BANK_STOPPED, NO_MEMORY};
use handed_kit::{Answering, mute_entries};
use std::alloc::Global;
use tbl_core::{Engine, StartFault};
use tbl_fakes::{Break, BreakingBank};
use tbl_kinds::{Admit, Memory};
use tbl_outside::Bank;
use validation::Kit;

/// A bank of these bytes, of which these writes break off.
fn bank_of(alloc: Global, bytes: &[u8], breaks: &[Break]) -> Result<BreakingBank, Memory>
    requires { length bytes.now < 2 ^ 32 }
    ensures { IfOk result (λ bank. bank ≡ breaking breaks.now bytes.now) }
{
    BreakingBank::make(alloc, Vec::from_slice(alloc, bytes)?, breaks)
}

/// A bank of the same bytes, of which these writes break off.
pub(crate) fn renewed(
    alloc: Global,
    bank: &BreakingBank,
    breaks: &[Break],
) -> Result<BreakingBank, Memory>
    ensures { IfOk result (λ it. it ≡ breaking breaks.now bank.now.bytes) }
{
    let size = bank.size() as usize;
    bank_of(alloc, &bank.bytes()[..size], breaks)
}

/// All functions, for which nothing was handed in.
fn mute_kit(alloc: Global) -> Result<Kit<Answering>, Memory>
    ensures kit { IfOk result (λ kit. kit ≡ mute_functions) }
    ensures asked { IfOk result (AskedBelow (λ (it : Spoken). it.asked) (2 ^ 62)) }
{
    let entries = mute_entries(alloc)?;
    Kit::make(alloc, entries)
}

/// The status that says why there is no engine.
fn start_status(fault: StartFault) -> u8
    ensures { IsUnopened result }
{
    match fault {
        StartFault::Memory => NO_MEMORY,
        StartFault::BootFault => BANK_FAILED,
        StartFault::BootStopped => BANK_STOPPED,
    }
}

/// An engine over a bank of these bytes, with all functions of the kit. An Err is the status.
pub(crate) fn start(alloc: Global, bank: &[u8]) -> Result<Engine<BreakingBank, Answering>, u8>
    requires { length bank.now ≡ bank_size }
    ensures { Opens bank.now result }
{
    let Ok(bank) = bank_of(alloc, bank, &[]) else {
        return Err(NO_MEMORY);
    };
    let Ok(kit) = mute_kit(alloc) else {
        return Err(NO_MEMORY);
    };
    match Engine::start(alloc, bank, kit, Admit::all()) {
        Ok(engine) => Ok(engine),
        Err(back) => Err(start_status(back.cause)),
    }
}

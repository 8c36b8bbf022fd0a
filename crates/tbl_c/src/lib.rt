//! The service for C: whoever links it can be sure that each call plays one record, that what it reports is the entry of one legal history
//! that begins as the handle was opened, and that nothing of a history is kept.
#![tactic(auto)]

mod handle;
mod loose;
mod opening;
mod service;
mod status;
mod told;
mod verdicts;

ghost use Rattle.std.specs.Prelude.{◌≡◌, ◌≢◌, ◌↔◌, ◌⊎◌, None, Some, Option, length, drop};
ghost use Rattle.tbl_kinds.specs.Places.{bank_size};
ghost use Rattle.tbl_c.specs.Breaks.{IsToBreak, writes_of};
ghost use Rattle.tbl_c.specs.Copies.{IsCopied};
ghost use Rattle.tbl_c.specs.Serving.{Begins, Between, OnHeld, Serving, Stepped, got};
ghost use Rattle.tbl_c.specs.Told.{over_front};

use crate::service::{BANK_SIZE, Service};
use crate::status::{BAD_BANK, CLOSED, NO_MEMORY, PLAYED};
pub use handle::Handle;
use std::alloc::Global;
use tbl_fakes::Break;
pub use told::{Told, Writes};

/// Opens a handle over a copy of preserved memory of 262,144 bytes: boots over it, with files of all spacecraft and processors admitted.
/// One that is open is closed first, and it stays closed if that fails. The status is 0, 1 or 17.
#[unsafe(no_mangle)]
pub extern "C" fn tbl_open(alloc: Global, handle: &mut Handle, bank: &[u8]) -> u8
    ensures ok { result ≡ 0 → (new : Serving) × (handle.new.service ≡ Some new) × Begins bank.now new }
    ensures err { result ≢ 0 → handle.new.service ≡ None }
    ensures bad_bank { (result ≡ 17) ↔ (length bank.now ≢ bank_size) }
{
    let _old = handle.replace(alloc, None);
    if bank.len() != BANK_SIZE {
        return BAD_BANK;
    }
    match Service::open(alloc, bank) {
        Err(status) => status,
        Ok(service) => match Box::new(alloc, service) {
            Err(_) => NO_MEMORY,
            Ok(service) => {
                let _none = handle.replace(alloc, Some(service));
                PLAYED
            }
        },
    }
}

/// Plays the request of one record, with the verdicts that validation functions give on the images it asks them about, in order. If one is
/// missing nothing is played, and C gets the function that it is of (`number`) and the image (`length`, and its bytes in `out`). Else C
/// gets the entry: `out` has the beginning of its bytes and `length` says how many it has.
#[unsafe(no_mangle)]
pub extern "C" fn tbl_step(
    alloc: Global,
    handle: &mut Handle,
    input: &[u8],
    verdicts: &[i32],
    out: &mut [u8],
    told: &mut Told,
) -> u8
    // The service begins where `tbl_open` left it, and each step goes on from where the one before left it. So by `legal` of `Stepped` the
    // entries that C got are one legal history.
    ensures { OnHeld handle.old.service handle.new.service result (λ old new. Stepped old new input.now verdicts.now (got result told.new out.old out.new)) }
{
    let Some(mut service) = handle.replace(alloc, None) else {
        return CLOSED;
    };
    let status = service.step(input, verdicts, out, told);
    let _none = handle.replace(alloc, Some(service));
    status
}

/// Gives preserved memory from a place on, as much of it as there is room for.
#[unsafe(no_mangle)]
pub extern "C" fn tbl_bank(alloc: Global, handle: &mut Handle, from: usize, out: &mut [u8]) -> u8
    ensures { OnHeld handle.old.service handle.new.service result (λ old new. (result ≡ 0) × (new ≡ old) × (out.new ≡ over_front (drop from old.state.store.bank.bytes) out.old)) }
{
    let Some(service) = handle.replace(alloc, None) else {
        return CLOSED;
    };
    service.bank(from, out);
    let _none = handle.replace(alloc, Some(service));
    PLAYED
}

/// Has these writes of preserved memory break off, and no others: they are counted from 1 with the next one. If memory runs out, nothing
/// is changed.
#[unsafe(no_mangle)]
pub extern "C" fn tbl_break(alloc: Global, handle: &mut Handle, breaks: &[Break]) -> u8
    ensures { OnHeld handle.old.service handle.new.service result (λ old new. IsToBreak breaks.now old new result) }
{
    let Some(mut service) = handle.replace(alloc, None) else {
        return CLOSED;
    };
    let status = match service.break_writes(breaks) {
        Ok(()) => PLAYED,
        Err(_) => NO_MEMORY,
    };
    let _none = handle.replace(alloc, Some(service));
    status
}

/// Tells what became of the writes of preserved memory since the handle was opened, or since `tbl_break`.
#[unsafe(no_mangle)]
pub extern "C" fn tbl_writes(alloc: Global, handle: &mut Handle, writes: &mut Writes) -> u8
    ensures { OnHeld handle.old.service handle.new.service result (λ old new. (result ≡ 0) × (new ≡ old) × (writes.new ≡ writes_of old.state.store.bank)) }
{
    let Some(service) = handle.replace(alloc, None) else {
        return CLOSED;
    };
    *writes = service.writes();
    let _none = handle.replace(alloc, Some(service));
    PLAYED
}

/// Has a handle hold a copy of what another holds: a snapshot, or the way back to one. What the first handle holds stays as it is. If memory
/// runs out, or if the first handle is closed, the other stays as it is too.
#[unsafe(no_mangle)]
pub extern "C" fn tbl_copy(alloc: Global, from: &mut Handle, to: &mut Handle) -> u8
    ensures from { from.new.service ≡ from.old.service }
    ensures copied { result ≡ 0 → Between from.old.service to.new.service IsCopied }
    ensures err { result ≢ 0 → to.new.service ≡ to.old.service }
    ensures why { (result ≡ 0) ⊎ (result ≡ 1) ⊎ ((result ≡ 18) × (from.old.service ≡ None)) }
{
    let Some(service) = from.replace(alloc, None) else {
        return CLOSED;
    };
    let copy = service.duplicate();
    let _none = from.replace(alloc, Some(service));
    let Ok(copy) = copy else {
        return NO_MEMORY;
    };
    match Box::new(alloc, copy) {
        Err(_) => NO_MEMORY,
        Ok(copy) => {
            let _before = to.replace(alloc, Some(copy));
            PLAYED
        }
    }
}

/// Closes a handle, and frees all that it holds. One that is closed stays so.
#[unsafe(no_mangle)]
pub extern "C" fn tbl_close(alloc: Global, handle: &mut Handle)
    ensures { handle.new.service ≡ None }
{
    let _service = handle.replace(alloc, None);
}

//! A service that has played nothing.

ghost use Rattle.std.specs.Prelude.{◌≡◌, [], false, length, IfOk};
ghost use Rattle.tbl_kinds.specs.Places.{bank_size};

use shipped_kit::FirstByte;
use std::alloc::Global;
use tbl_core::Core;
use tbl_fakes::CalmBank;
use tbl_kinds::{Admit, Memory};
use test_tables::{BANK_SIZE, CaseFault};
use validation::Kit;

/// A bank of zeros.
pub(crate) fn new_bank(alloc: Global) -> Result<CalmBank, Memory>
    ensures { IfOk result (λ bank. length bank ≡ bank_size) }
{
    CalmBank::of_zeros(alloc, BANK_SIZE as u32)
}

/// A core without validation functions over a bank of zeros.
pub(crate) fn new_core(alloc: Global) -> Result<Core<CalmBank, FirstByte>, CaseFault>
    ensures empty { IfOk result (λ core. core.entries ≡ []) }
    ensures live { IfOk result (λ core. core.state.ended ≡ false) }
{
    let kit = Kit::make(alloc, Vec::new(alloc))?;
    let bank = new_bank(alloc)?;
    match Core::start(alloc, bank, kit, Admit::all()) {
        Ok(core) => Ok(core),
        Err(_) => Err(CaseFault::Memory),
    }
}

ghost use Rattle.std.specs.Prelude.{◌≡◌, length, IfOk};
ghost use Rattle.tbl_kinds.specs.Places.{bank_size};

use cds_store::recover;
use std::alloc::Global;
use std::test::Fail;
use tbl_fakes::MemBank;
use tbl_kinds::{BlockKind, Memory, Name};

/// How many bytes the bank has.
const BANK_SIZE: usize = 262_144;

fn zeros(alloc: Global, len: usize) -> Result<Vec<u8>, Memory>
    ensures { IfOk result (λ v. length v.items ≡ len) }
{
    Ok(vec![in alloc; 0; len]?)
}

/// A bank of zeros.
fn bank(alloc: Global) -> Result<MemBank, Memory>
    ensures { IfOk result (λ bank. length bank.bytes ≡ bank_size) }
{
    MemBank::make(alloc, zeros(alloc, BANK_SIZE)?, &[], &[], 16, 16_384)
}

/// How many writes the bank was asked for, where no image came.
fn writes_without(image: &Option<Vec<u8>>, bank: &MemBank) -> Option<u64> {
    match image {
        Some(_) => None,
        None => Some(bank.write_count()),
    }
}

/// The writes of a recovery from a bank of zeros.
fn writes_of_recovery(alloc: Global) -> Result<Option<u64>, Fail> {
    let bank = bank(alloc)?;
    match recover(alloc, bank, BlockKind::Table, &Name::of(b"A.T")) {
        Ok((image, bank)) => Ok(writes_without(&image, &bank)),
        Err(_back) => Err(Fail::new("nothing was told")),
    }
}

// All other calls of the store are played by the program test_calls.
#[test]
fn nothing_comes_back_of_zeros(rt: HostRuntime) -> Result<(), Fail> {
    assert_eq!(rt; writes_of_recovery(rt.alloc())?, Some(3));
    Ok(())
}

//! What a block holds comes back after a reset.

ghost use Rattle.std.specs.Prelude.{◌≡◌, ◌≢◌, ◌≤◌, ℕ, None, Some, true, false, MatchOption, IfOk, OnOk, IfErr};
ghost use Rattle.std.specs.Option.{option_map};
ghost use Rattle.tbl_kinds.specs.Blocks.{Store as Blocks};
ghost use Rattle.tbl_kinds.specs.Places.{bank_size};
ghost use Rattle.tbl_kinds.specs.StoreSteps.{Shows, open_of};
ghost use Rattle.cds_layout.specs.Images.{store_of};
ghost use Rattle.tbl_outside.specs.Bank.{LeavesOnly};
ghost use Rattle.tbl_outside.specs.BankCalls.{Asks};
ghost use Rattle.tbl_outside.specs.Counts.{Still};
ghost use Rattle.cds_store.specs.Moments.{ShowsIn};
ghost use Rattle.cds_store.specs.Recovery.{ShowsOn, cause_of, Recovers, RecoverCounted, ShowsStill, open_reads, recover_calls, Restored, NotRestored, Recovered, NotRecovered};
ghost use Rattle.cds_store.specs.Sound.{slot_at, IsOpenOf};
ghost use Rattle.cds_store.specs.StoreBlocks.{StandsFor};
ghost use Rattle.cds_store.specs.BankSteps.{Meanwhile};

use crate::fault::BankFault;
use crate::store::Store;
use cds_layout::RestoreFault;
use std::alloc::{AllocError, Global};
use tbl_kinds::{BlockKind, Memory, Name40, ResetKind};
use tbl_outside::{Back, Bank};
use thiserror::Error;

/// Why a block wasn't looked at.
#[derive(Clone, Copy, Debug, PartialEq, Eq, Error)]
pub enum RecoverFault {
    /// The bank failed.
    #[error("the bank failed")]
    Fault,
    /// The processor was reset.
    #[error("the processor was reset")]
    Stopped,
    /// Memory ran out.
    #[error("out of memory")]
    Memory,
}

impl From<AllocError> for RecoverFault {
    ghost use Rattle.std.specs.Prelude.{◌≡◌};
    ghost use Rattle.cds_store.specs.declared.recovery.RecoverFault.TheVariants as fault;

    ghost from_gives = { λ _ e. e ≡ fault.Memory };

    fn from(_error: AllocError) -> RecoverFault {
        RecoverFault::Memory
    }
}

/// The slot of the open block of this kind and name, and the size of its image.
fn find_open_block<B: Bank>(store: &Store<B>, kind: BlockKind, name: &Name40) -> Option<(u8, u32)>
    ensures block { (blocks : Blocks) → StandsFor B.tells B.now store.now blocks →
        MatchOption result (open_of kind name.now blocks ≡ None) (λ found. open_of kind name.now blocks ≡ Some found.0) }
    ensures size { MatchOption result (Unit {0}) (λ found. IsOpenOf found.1 (slot_at store.now.slots found.0)) }
{
    let slot = store.find(kind, name)?;
    match store.block(slot) {
        Some(block) => Some((slot, block.size)),
        None => unreachable!(),
    }
}

/// The image that the open block of this kind and name holds, if there is one.
fn restore_open<B: Bank>(
    alloc: Global,
    store: &mut Store<B>,
    kind: BlockKind,
    name: &Name40,
) -> Result<Option<Vec<u8>>, RecoverFault>
    requires booted { store.old.booted ≡ true }
    ensures restored { IfOk result (λ image. Restored B.Bank store.old store.new kind name.now (option_map (λ v. v.items) image)) }
    ensures not_restored { IfErr result (NotRestored B.Bank store.old store.new kind name.now) }
    ensures bytes { B.tells → B.now store.new.bank ≡ B.now store.old.bank }
    ensures moments { Meanwhile B.Bank store.old.bank store.new.bank (λ image. image ≡ B.now store.old.bank) }
{
    let Some((slot, size)) = find_open_block(store, kind, name) else {
        return Ok(None);
    };
    let mut image = vec![in alloc; 0; size as usize]?;
    match store.restore(slot, &mut image) {
        Ok(()) => Ok(Some(image)),
        Err(RestoreFault::NoImage) => Ok(None),
        Err(RestoreFault::Torn { .. }) => Ok(None),
        Err(RestoreFault::Fault) => Err(RecoverFault::Fault),
    }
}

/// Why a boot that broke off recovers nothing.
fn cause_of(fault: BankFault) -> RecoverFault
    ensures { result ≡ cause_of fault }
{
    match fault {
        BankFault::Fault { .. } => RecoverFault::Fault,
        BankFault::Stopped { .. } => RecoverFault::Stopped,
    }
}

/// The image that a booted store has of the open block of this kind and name.
fn boot_and_restore<B: Bank>(
    alloc: Global,
    store: &mut Store<B>,
    kind: BlockKind,
    name: &Name40,
) -> Result<Option<Vec<u8>>, RecoverFault>
    ensures shows { ShowsOn B.Bank store.old.bank store.new.bank }
    ensures recovered { IfOk result (λ image. Recovered B.Bank store.old.bank store.new.bank kind name.now (option_map (λ v. v.items) image)) }
    ensures not_recovered { IfErr result (NotRecovered B.Bank store.old.bank store.new.bank kind name.now) }
{
    match store.boot(ResetKind::Processor) {
        Ok(_found) => restore_open(alloc, store, kind, name),
        Err(fault) => Err(cause_of(fault)),
    }
}

/// What the block of this kind and name holds after a reset: a store is made over the bank and booted as after a reset of the processor,
/// and the open block is restored. The blocks that the bank shows may be any, also those of a call that a reset broke off. An open one
/// comes back as its last completed image, or as one whose copy broke off since. If the bank shows none of this kind and name, nothing
/// comes back. The bank comes back too, and can be opened again.
pub fn recover<B: Bank>(
    alloc: Global,
    bank: B,
    kind: BlockKind,
    name: &Name40,
) -> Result<(Option<Vec<u8>>, B), Back<RecoverFault, B>>
    requires { bank_size ≤ B.size bank }
    ensures recovered { IfOk result (λ told. Recovered B.Bank bank told.1 kind name.now (option_map (λ v. v.items) told.0)) }
    ensures back { IfOk result (λ told. ShowsStill B.Bank bank told.1) }
    ensures not_recovered { IfErr result (λ back. NotRecovered B.Bank bank back.bank kind name.now back.cause) }
    ensures err { IfErr result (λ back. ShowsStill B.Bank bank back.bank) }
{
    let mut store = match Store::make(alloc, bank) {
        Ok(store) => store,
        Err(Back { bank, .. }) => {
            return Err(Back {
                cause: RecoverFault::Memory,
                bank,
            });
        }
    };
    match boot_and_restore(alloc, &mut store, kind, name) {
        Ok(image) => Ok((image, store.end())),
        Err(cause) => Err(Back {
            cause,
            bank: store.end(),
        }),
    }
}

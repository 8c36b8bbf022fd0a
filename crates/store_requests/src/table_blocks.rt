//! The block of a table in the Critical Data Store: found, and deleted by the ground.

ghost use Rattle.std.specs.Prelude.{◌≡◌, ◌==◌, ℕ, Option, is_some, true, Some, IsSome, IfSome, IfOk, OnErr};
ghost use Rattle.std.specs.Option.{option_or};
ghost use Rattle.tbl_kinds.specs.Blocks.{Store as Blocks};
ghost use Rattle.tbl_kinds.specs.declared.block.BlockKind.TheVariants as kind;
ghost use Rattle.tbl_model.specs.State.{Table};
ghost use Rattle.tbl_model.specs.Copies.{block_of};
ghost use Rattle.tbl_model.specs.AppBlocks.{any_of, delete_table_block, delete_cds_effect};
ghost use Rattle.cds_store.specs.Sound.{slot_at, IsOpenOf};
ghost use Rattle.cds_store.specs.StoreBlocks.{StandsFor};
ghost use Rattle.cds_store.specs.Slots.{open_slot, doubtful_slot};
ghost use Rattle.store_requests.specs.BankCalls.{asks_delete_named};
ghost use Rattle.store_requests.specs.Requests.{Served, Made, alone, at_desk};
ghost use Rattle.request_effects.specs.Reports.{nothing_reported};
ghost use Rattle.request_effects.specs.Effects.{reported_effect};

use crate::blocks::delete;
use crate::effect::Effect;
use cds_store::Store;
use desk::Desk;
use request_effects::{Report, subject};
use std::alloc::Global;
use tbl_kinds::{BlockKind, Memory, Name40, Status};
use tbl_model::Named;
use tbl_outside::{Bank, Validator};

/// The block of a table of this name, open or in doubt.
pub(crate) fn table_block<B: Bank>(store: &Store<B>, name: &Name40) -> Option<u8>
    ensures block { (blocks : Blocks) → StandsFor B.tells B.now store.now blocks → result ≡ any_of kind.Table name.now blocks }
    ensures slot { result ≡ option_or (open_slot kind.Table name.now store.now.slots) (doubtful_slot kind.Table name.now store.now.slots) }
    ensures taken { IfSome result (λ slot. IsSome (slot_at store.now.slots slot)) }
{
    match store.find(BlockKind::Table, name) {
        Some(slot) => Some(slot),
        None => store.doubtful(BlockKind::Table, name),
    }
}

/// The open block of a table of this name, if its image has this size.
pub(crate) fn sized_block<B: Bank>(store: &Store<B>, name: &Name40, size: usize) -> Option<u8>
    ensures block { (t : Table) (blocks : Blocks) → t.name ≡ name.now → t.size ≡ size → StandsFor B.tells B.now store.now blocks → result ≡ block_of t blocks }
    ensures sized { IfSome result (λ slot. IsOpenOf size (slot_at store.now.slots slot)) }
{
    let slot = store.find(BlockKind::Table, name)?;
    let block = store.block(slot)?;
    if block.size as usize == size {
        Some(slot)
    } else {
        None
    }
}

/// Deletes the block of a table of this name, if no such table is registered.
fn delete_table_block<B: Bank>(
    alloc: Global,
    store: &mut Store<B>,
    name: &Name40,
    is_registered: bool,
) -> Result<Effect, Memory>
    requires booted { store.old.booted ≡ true }
    ensures served { (row : Option ℕ) → is_some row ≡ is_registered
        → Served B.Bank (alone store.old) (alone store.new) (λ s n. delete_table_block s n (any_of kind.Table name.now s.store) row) (asks_delete_named name.now) result }
{
    match table_block(store, name) {
        None => Ok(Effect::plain(Status::ERR_CDS_NOT_FOUND)),
        Some(_) if is_registered => Ok(Effect::plain(Status::ERR_TABLE_ACTIVE)),
        Some(slot) => delete(alloc, store, slot),
    }
}

/// The report names the table of a command, if it is registered. Whether it is.
fn tell_table(report: &mut Report, table: Option<Named>) -> bool
    requires { report.old ≡ nothing_reported }
    ensures is { result ≡ is_some table }
    ensures report { report.new ≡ record nothing_reported { table = table } }
{
    match table {
        Some(table) => {
            report.name_table(table);
            true
        }
        None => false,
    }
}

/// The ground deletes the block of a table that isn't registered (`CFE_TBL_DELETE_CDS_CC`).
#[inline(never)]
pub fn delete_cds<B: Bank, C: Validator>(
    desk: &Desk<C>,
    store: &mut Store<B>,
    report: &mut Report,
    name: &Name40,
) -> Result<Effect, Memory>
    requires booted { store.old.booted ≡ true }
    requires report { report.old ≡ nothing_reported }
    ensures made { IfOk result (λ done. Made B.Bank (at_desk desk.now store.old) (at_desk desk.now store.new) (λ s. delete_cds_effect s name.now)
        (reported_effect done.answer done.bytes report.new done.note)) }
    // The bank got the calls that this call of the store makes, and no others.
    ensures bank_calls { IfOk result (λ done. asks_delete_named name.now B.Bank store.old store.new done.note.outcome) }
    ensures report { IfOk result (λ done. report.new ≡ record nothing_reported { table = report.new.table }) }
    ensures err { OnErr result (store.new ≡ store.old) }
{
    let is_registered = tell_table(report, subject(&desk.tables, name));
    delete_table_block(desk.alloc, store, name, is_registered)
}

//! Applications register tables.

ghost use Rattle.std.specs.Prelude.{◌≡◌, true, IfOk, OnOk, OnErr};
ghost use Rattle.tbl_model.specs.CriticalTables.{critical_effect};
ghost use Rattle.sharing.specs.Registering.{next_row, planned, registering, IsPlan};
ghost use Rattle.store_requests.specs.Registering.{Registered, RegistersOne, KeepsFit, books};
ghost use Rattle.store_requests.specs.Requests.{Made, at_desk};

use crate::critical::keep;
use crate::effect::Effect;
use bitflags::Flags;
use cds_store::Store;
use desk::Desk;
use sharing::{Registration, plan_table, register_plain, register_uncritical};
use std::alloc::Global;
use tbl_kinds::{Memory, Options};
use tbl_outside::{Bank, Validator};
use tbl_registry::{NewTable, Tables};

/// So many tables can be critical (`CFE_PLATFORM_TBL_MAX_CRITICAL_TABLES`).
const MOST_CRITICAL: u16 = 32;

/// Registers a critical table that nothing refuses. If as many are critical as can be, the store isn't called.
fn register_critical<B: Bank>(
    alloc: Global,
    tables: &mut Tables,
    store: &mut Store<B>,
    app: u8,
    plan: NewTable,
) -> Result<Effect, Memory>
    requires booted { store.old.booted ≡ true }
    requires plan { IsPlan tables.old plan }
    ensures registered { Registered B.Bank (books tables.old store.old) (books tables.new store.new) app plan (λ s. critical_effect s (next_row tables.old) (planned tables.old app plan)) result }
{
    if MOST_CRITICAL <= tables.critical_count() {
        return Ok(Effect::of(register_uncritical(tables, app, plan)));
    }
    keep(alloc, tables, store, app, plan)
}

/// An application registers a table (`CFE_TBL_Register`).
#[inline(never)]
pub fn register<B: Bank, C: Validator>(
    desk: &mut Desk<C>,
    store: &mut Store<B>,
    app: u8,
    asked: &Registration,
) -> Result<Effect, Memory>
    requires booted { store.old.booted ≡ true }
    ensures held { desk.new ≡ record desk.old { tables = desk.new.tables } }
    ensures made { IfOk result (Made B.Bank (at_desk desk.old store.old) (at_desk desk.new store.new) (λ s. registering s app asked.now)) }
    // What holds of tables still does. This also holds over a bank that doesn't show its bytes.
    ensures fit { OnOk result (KeepsFit (at_desk desk.old store.old) (at_desk desk.new store.new)) }
    ensures one { OnOk result (RegistersOne desk.old.tables desk.new.tables app) }
    ensures err_tables { OnErr result (desk.new.tables ≡ desk.old.tables) }
    ensures err_store { OnErr result (store.new ≡ store.old) }
{
    let plan = match plan_table(&desk.tables, &desk.kit, &desk.apps, app, asked) {
        Ok(plan) => plan,
        Err(answer) => return Ok(Effect::of(answer)),
    };
    if plan.flags.contains(Options::CRITICAL) {
        return register_critical(desk.alloc, &mut desk.tables, store, app, plan);
    }
    let answer = register_plain(desk.alloc, &mut desk.tables, app, plan)?;
    Ok(Effect::of(answer))
}

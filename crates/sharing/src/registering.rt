ghost use Rattle.std.specs.Prelude.{◌≡◌, length, true, None, Some, IfSome, IfNone, IfOk, replicate, if◌then◌else◌};
ghost use Rattle.tbl_model.specs.Tables.{option_bits, has_option, table_at};
ghost use Rattle.tbl_model.specs.TableSteps.{with_first, uncritical, as_registered};
ghost use Rattle.tbl_model.specs.Registration.{duplicate_answer, name_refusal, place_refusal};
ghost use Rattle.tbl_model.specs.Refusals.{refusal, are_options, may_use, plan_refusal};
ghost use Rattle.tbl_kinds.specs.Names.{is_name};
ghost use Rattle.validation.specs.Kits.{owners};
ghost use Rattle.sharing.specs.Registering.{planned, CanRegister, IsPlan, Planned, TakesPlace, Placed};

use crate::apps::{Apps, plan_name};
use bitflags::Flags;
use buffer_pairs::Image;
use std::alloc::Global;
use tbl_kinds::{Answer, Memory, Name16, Name40, Options, Status};
use tbl_outside::Validator;
use tbl_registry::{NewTable, Tables};
use validation::Kit;

/// The largest table (`CFE_PLATFORM_TBL_MAX_SNGL_TABLE_SIZE`), in bytes.
const TABLE_LIMIT: u32 = 16_384;

/// A refusal that names nothing.
fn refusal(status: Status) -> Option<Answer>
    ensures { result ≡ refusal status }
{
    Some(Answer { status, detail: 0 })
}

/// Whether the application may have its table judged by this function of the kit, if it asks for one.
#[tactic(auto, using(crate::proofs::Functions::may_use_at))]
fn may_use<C: Validator>(kit: &Kit<C>, app: u8, validator: Option<u8>) -> bool
    ensures { result ≡ may_use (owners kit.now) app validator }
{
    match validator {
        Some(number) => kit.may_use(app, number),
        None => true,
    }
}

/// Whether these options can be asked for: none, two buffers, critical, both, or dump-only.
fn are_options(flags: u16) -> bool
    ensures { result ≡ are_options flags }
{
    let double = Options::DOUBLE.bits();
    let critical = Options::CRITICAL.bits();
    flags == 0
        || flags == double
        || flags == Options::DUMP_ONLY.bits()
        || flags == critical
        || flags == critical + double
}

/// What an application registers.
#[derive(Drop)]
pub struct Registration {
    pub name: Name16,
    pub size: u32,
    pub flags: u16,
    /// The number of its validation function, if it has one.
    pub validator: Option<u8>,
}

/// The first thing that can't be asked for: the name, the size, the options, the validation function.
fn plan_refusal<C: Validator>(kit: &Kit<C>, app: u8, asked: &Registration) -> Option<Answer>
    ensures refusal { result ≡ plan_refusal (owners kit.now) app asked.now.name asked.now.size asked.now.flags asked.now.validator }
    ensures named { IfNone result (is_name asked.now.name ≡ true) }
    ensures options { IfNone result (are_options asked.now.flags ≡ true) }
{
    if !asked.name.is_name() {
        return refusal(Status::ERR_INVALID_NAME);
    }
    if asked.size == 0 || asked.size > TABLE_LIMIT {
        return refusal(Status::ERR_INVALID_SIZE);
    }
    if !are_options(asked.flags) {
        return refusal(Status::ERR_INVALID_OPTIONS);
    }
    if !may_use(kit, app, asked.validator) {
        return refusal(Status::ERR_NO_VALIDATOR);
    }
    None
}

/// What a new table begins with: an image of zeros if it is dump-only, else none.
fn first_image(alloc: Global, size: u32, flags: &Options) -> Result<Option<Image>, Memory>
    ensures { IfOk result (λ first. first ≡ (if has_option 0x0002 (option_bits flags.now) then Some (replicate size 0) else None)) }
{
    if !flags.contains(Options::DUMP_ONLY) {
        return Ok(None);
    }
    Ok(Some(Image::zeros(alloc, size)?))
}

/// The answer if a table of this name is there, in this row.
fn duplicate(tables: &Tables, row: u8, app: u8, size: u32) -> Answer
    ensures { result ≡ duplicate_answer app size (table_at tables.now row) }
{
    let Some(table) = tables.row(row) else {
        return Answer::plain(Status::ERR_REGISTRY_FULL);
    };
    if table.owner != app {
        return Answer::plain(Status::ERR_DUPLICATE_NOT_OWNED);
    }
    if table.size != size {
        return Answer::plain(Status::ERR_DUPLICATE_DIFF_SIZE);
    }
    Answer {
        status: Status::WARN_DUPLICATE,
        detail: u32::from(table.handle),
    }
}

/// The answer if a table of this name is there.
fn name_refusal(tables: &Tables, app: u8, size: u32, name: &Name40) -> Option<Answer>
    ensures { result ≡ name_refusal tables.now app size name.now }
{
    let row = tables.find(name.bytes())?;
    Some(duplicate(tables, row, app, size))
}

/// What is full: the registry, or the handles.
fn place_refusal(tables: &Tables) -> Option<Answer>
    ensures { result ≡ place_refusal tables.now }
{
    if tables.next_row().is_none() {
        return refusal(Status::ERR_REGISTRY_FULL);
    }
    if tables.next_handle().is_none() {
        return refusal(Status::ERR_HANDLES_FULL);
    }
    None
}

/// The table that an application's registration makes (`CFE_TBL_Register`), or the answer with which one ends that makes none:
/// its name, size, options and validation function can't be asked for, a table of its full name is there, or the registry or
/// the handles are full. `WARN_DUPLICATE`: the application has registered it already, and the detail is its handle.
pub fn plan_table<C: Validator>(
    tables: &Tables,
    kit: &Kit<C>,
    apps: &Apps,
    app: u8,
    asked: &Registration,
) -> Result<NewTable, Answer>
    ensures { Planned tables.now (owners kit.now) apps.now app asked.now result }
{
    let Some(name) = plan_name(apps, app, &asked.name) else {
        return Err(Answer::plain(Status::ERR_BAD_APP));
    };
    if let Some(answer) = plan_refusal(kit, app, asked) {
        return Err(answer);
    }
    // An application that registers its table again gets its handle even if the registry is full.
    if let Some(answer) = name_refusal(tables, app, asked.size, &name) {
        return Err(answer);
    }
    if let Some(answer) = place_refusal(tables) {
        return Err(answer);
    }
    Ok(NewTable {
        name,
        size: asked.size,
        flags: Options::from_bits_retain(asked.flags),
        validator: asked.validator,
        first: None,
    })
}

/// Registers a table for an application, which nothing refuses, with the image that it begins with, and answers so. The
/// detail is the handle of its registration.
#[tactic(auto, using(crate::proofs::Options::one_buffer))]
pub fn register(tables: &mut Tables, app: u8, plan: NewTable, status: Status) -> Answer
    requires can { CanRegister tables.old plan }
    requires first { IfSome plan.first (λ image. length image ≡ plan.size) }
    ensures { TakesPlace tables.old tables.new (with_first plan.first (planned tables.old app plan)) status result }
{
    match tables.add(app, plan) {
        Ok(handle) => Answer {
            status,
            detail: u32::from(handle),
        },
        Err(_) => unreachable!(),
    }
}

/// Registers a table that was to be critical (`CFE_TBL_OPT_CRITICAL`), and isn't.
pub fn register_uncritical(tables: &mut Tables, app: u8, plan: NewTable) -> Answer
    requires { IsPlan tables.old plan }
    ensures { TakesPlace tables.old tables.new (uncritical (planned tables.old app plan)) Status.WARN_NOT_CRITICAL result }
{
    let Some(row) = tables.next_row() else {
        unreachable!();
    };
    let answer = register(tables, app, plan, Status::WARN_NOT_CRITICAL);
    tables.not_critical(row);
    answer
}

/// Registers a table that isn't to be critical. It begins with an image of zeros if it is dump-only (`CFE_TBL_OPT_DUMP_ONLY`),
/// else with none.
pub fn register_plain(
    alloc: Global,
    tables: &mut Tables,
    app: u8,
    plan: NewTable,
) -> Result<Answer, Memory>
    requires can { CanRegister tables.old plan }
    ensures { Placed tables.old tables.new (as_registered (planned tables.old app plan)) Status.SUCCESS result }
{
    let first = first_image(alloc, plan.size, &plan.flags)?;
    let plan = NewTable { first, ..plan };
    Ok(register(tables, app, plan, Status::SUCCESS))
}

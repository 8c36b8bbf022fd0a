// What comes back after a reset: asked from the service that starts again over the bank that was left.
use crate::plan::Plan;
use crate::play::{Fault, Service, anew, ask, close};
use crate::tables::{Back, Registration, Table};
use crate::tries::Runs;
use check_word::check16;
use std::alloc::Global;
use tbl_kinds::{Actor, Bytes, Request, Status};

/// Makes a request, and gives its status.
fn status_of(core: &mut Service, actor: Actor, request: Request) -> Result<Status, Fault> {
    Ok(ask(core, actor, request)?.reply.status)
}

/// The bytes of a table that its owner has got; none if the read is refused.
fn read_bytes(
    core: &mut Service,
    actor: Actor,
    handle: u16,
    len: u32,
) -> Result<Option<Bytes>, Fault> {
    let request = Request::Read {
        handle,
        offset: 0,
        len,
    };
    let reply = &ask(core, actor, request)?.reply;
    if reply.status == Status::SUCCESS {
        Ok(Some(reply.bytes.copy()?))
    } else {
        Ok(None)
    }
}

/// The last image of a table, read by its owner through its handle; none if it has none.
pub(crate) fn read_image(
    core: &mut Service,
    actor: Actor,
    handle: u16,
    size: u32,
) -> Result<Option<Bytes>, Fault> {
    status_of(core, actor, Request::Release { handle })?;
    let got = status_of(core, actor, Request::Get { handle })?;
    if got == Status::SUCCESS || got == Status::INFO_UPDATED {
        read_bytes(core, actor, handle, size)
    } else {
        Ok(None)
    }
}

/// Whether the application of a table runs under its name once the tables before it are registered; none if it doesn't run, as it has
/// registered none of them.
fn runs_as_wanted(earlier: &[Table], wanted: &Registration, played: usize) -> Option<bool> {
    for table in earlier.iter().rev() {
        if let Some(registration) = table.registration(played) {
            if registration.actor == wanted.actor {
                return Some(registration.app == wanted.app);
            }
        }
    }
    None
}

/// Lets the application of a table run under its name.
fn start_app(
    core: &mut Service,
    earlier: &[Table],
    wanted: &Registration,
    played: usize,
) -> Result<(), Fault> {
    let runs = runs_as_wanted(earlier, wanted, played);
    if runs == Some(true) {
        return Ok(());
    }
    if runs == Some(false) {
        status_of(core, wanted.actor, Request::Exit)?;
    }
    let name = wanted.app.copy();
    status_of(core, wanted.actor, Request::Start { name })?;
    Ok(())
}

/// The answer to a request that registers a table again: the status and the detail.
fn register(core: &mut Service, wanted: &Registration) -> Result<(Status, u32), Fault> {
    let request = Request::Register {
        name: wanted.name.copy(),
        size: wanted.size,
        flags: wanted.flags,
        validator: wanted.validator,
    };
    let reply = &ask(core, wanted.actor, request)?.reply;
    Ok((reply.status, reply.detail))
}

/// Lets the application of a table run, registers the table, and gives the image that came back.
fn first_image(core: &mut Service, wanted: &Registration) -> Result<Option<Bytes>, Fault> {
    start_app(core, &[], wanted, 0)?;
    let (status, detail) = register(core, wanted)?;
    if status == Status::INFO_RECOVERED_TBL {
        read_image(core, wanted.actor, handle_of(detail)?, wanted.size)
    } else {
        Ok(None)
    }
}

/// The image that comes back in a table which is the first to be registered over these bytes.
pub(crate) fn image_in(
    alloc: Global,
    store: &[u8],
    wanted: &Registration,
) -> Result<Option<Bytes>, Fault> {
    let mut core = anew(alloc, store)?;
    let image = first_image(&mut core, wanted);
    close(core);
    image
}

/// The handle of a number.
fn handle_of(detail: u32) -> Result<u16, Fault> {
    match u16::try_from(detail) {
        Ok(handle) => Ok(handle),
        Err(_) => Err(Fault::Full),
    }
}

/// Registers a table again, and says what came back.
fn back_of(
    core: &mut Service,
    table: &Table,
    wanted: &Registration,
    played: usize,
) -> Result<Back, Fault> {
    let (status, detail) = register(core, wanted)?;
    if status != Status::SUCCESS && status != Status::INFO_RECOVERED_TBL {
        return Ok(Back::Refused { status: status.0 });
    }
    match read_image(core, wanted.actor, handle_of(detail)?, wanted.size)? {
        None => Ok(Back::None),
        Some(image) => Ok(table.judge(played, image.bytes(), check16(image.bytes()))),
    }
}

/// Lets the application of the table at a place run, and says what came back in that table.
fn come_back_at(
    core: &mut Service,
    tables: &[Table],
    at: usize,
    table: &Table,
    played: usize,
) -> Result<Back, Fault> {
    let wanted = table.registration(played).ok_or(Fault::Full)?;
    let earlier = tables.get(..at).ok_or(Fault::Full)?;
    start_app(core, earlier, wanted, played)?;
    back_of(core, table, wanted, played)
}

/// What comes back in each table, registered again in a service that was just started.
fn come_back_in(
    core: &mut Service,
    tables: &[Table],
    played: usize,
    after: u32,
    runs: &mut Runs,
) -> Result<(), Fault> {
    for (at, table) in tables.iter().enumerate() {
        let back = come_back_at(core, tables, at, table, played)?;
        runs.take(at, after, back)?;
    }
    Ok(())
}

/// What comes back in each table after a reset that left these bytes in the bank, in the last of so many requests and after
/// so many bytes of a write.
pub(crate) fn come_back(
    plan: &Plan<'_>,
    image: &[u8],
    played: usize,
    after: u32,
    runs: &mut Runs,
) -> Result<(), Fault> {
    let mut core = anew(plan.scenario.alloc, image)?;
    let told = come_back_in(&mut core, plan.tables, played, after, runs);
    close(core);
    told
}

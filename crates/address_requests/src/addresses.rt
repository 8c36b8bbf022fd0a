//! Addresses of tables: got, read through, and given back.

ghost use Rattle.std.specs.Prelude.{◌≡◌, ◌≢◌, ◌≤◌, [], length, IfOk, IfErr, OnOk};
ghost use Rattle.tbl_model.specs.State.{State};
ghost use Rattle.tbl_model.specs.Effects.{answered, answered_with};
ghost use Rattle.tbl_model.specs.Addresses.{get_effect, release_effect, read_effect};
ghost use Rattle.tbl_kinds.specs.Limits.{table_limit};
ghost use Rattle.request_effects.specs.Effects.{IsEffect, IsQuiet, quiet_effect};
ghost use Rattle.address_requests.specs.Reads.{Reads, AreRead};

use desk::{Desk, check};
use tbl_kinds::{Answer, Bytes, Memory, Status};
use tbl_outside::Validator;
use tbl_registry::Tables;

/// An application gets the address of a table (`CFE_TBL_GetAddress`): its handle pins the last image.
#[tactic(auto, unfolding(tbl_model::specs::Addresses::get_effect))]
pub fn get<C: Validator>(desk: &mut Desk<C>, app: u8, handle: u16) -> Answer
    ensures effect { (s : State) → s.tables ≡ desk.old.tables → s.apps ≡ desk.old.apps → get_effect s app handle ≡ answered_with s result desk.new.tables }
    ensures others { desk.new ≡ record desk.old { tables = desk.new.tables } }
{
    match check(&desk.tables, &desk.apps, app, handle, false) {
        Ok(_) => desk.tables.get_address(handle),
        Err(status) => Answer::plain(status),
    }
}

/// An application gives the address of a table back (`CFE_TBL_ReleaseAddress`): the pin ends.
#[tactic(auto, unfolding(tbl_model::specs::Addresses::release_effect))]
pub fn release<C: Validator>(desk: &mut Desk<C>, app: u8, handle: u16) -> Answer
    ensures effect { (s : State) → s.tables ≡ desk.old.tables → s.apps ≡ desk.old.apps → release_effect s app handle ≡ answered_with s result desk.new.tables }
    ensures others { desk.new ≡ record desk.old { tables = desk.new.tables } }
{
    match check(&desk.tables, &desk.apps, app, handle, false) {
        Ok(_) => desk.tables.release(handle),
        Err(status) => Answer::plain(status),
    }
}

/// The bytes that a handle's image has there, or why they aren't given.
#[tactic(auto, unfolding(tbl_model::specs::Addresses::read_effect))]
fn piece<'a, C: Validator>(
    desk: &'a Desk<C>,
    app: u8,
    handle: u16,
    offset: u32,
    len: u32,
) -> Result<&'a [u8], Status>
    ensures ok { IfOk result (λ bytes. (s : State) → s.tables ≡ desk.now.tables → s.apps ≡ desk.now.apps
        → read_effect s app handle offset len ≡ record (answered s Status.SUCCESS 0) { bytes = bytes.now }) }
    ensures err { IfErr result (λ status. (s : State) → s.tables ≡ desk.now.tables → s.apps ≡ desk.now.apps → read_effect s app handle offset len ≡ answered s status 0) }
    ensures reads { IfOk result (λ bytes. Reads handle offset len desk.now.tables bytes.now) }
    ensures within { IfOk result (λ bytes. length bytes.now ≤ table_limit) }
{
    match check(&desk.tables, &desk.apps, app, handle, false) {
        Ok(_) => desk.tables.read(handle, offset, len),
        Err(status) => Err(status),
    }
}

/// Puts the bytes that the handle's image has there. If they are the whole image and many, they stay in place and get a further owner; else
/// they are copied.
fn put_piece(
    tables: &Tables,
    handle: u16,
    offset: u32,
    len: u32,
    piece: &[u8],
    bytes: &mut Bytes,
) -> Result<(), Memory>
    requires reads { Reads handle offset len tables.now piece.now }
    requires empty { bytes.old.list ≡ [] }
    ensures { OnOk result (bytes.new.list ≡ piece.now) }
{
    if let Some(image) = tables.read_whole(handle, offset, len) {
        *bytes = Bytes::from_shared(bytes.allocator(), image.shared()?);
        return Ok(());
    }
    bytes.reserve(piece.len())?;
    bytes.append(piece);
    Ok(())
}

/// An application reads bytes of the image that its handle pins.
pub fn read<C: Validator>(
    desk: &Desk<C>,
    app: u8,
    handle: u16,
    offset: u32,
    len: u32,
    bytes: &mut Bytes,
) -> Result<Answer, Memory>
    requires { bytes.old.list ≡ [] }
    ensures effect { IfOk result (λ answer. (s : State) → s.tables ≡ desk.now.tables → s.apps ≡ desk.now.apps
        → IsEffect (quiet_effect answer bytes.new.list) [] s (read_effect s app handle offset len)) }
    ensures quiet { IfOk result (λ answer. IsQuiet (quiet_effect answer bytes.new.list)) }
{
    match piece(desk, app, handle, offset, len) {
        Ok(piece) => {
            put_piece(&desk.tables, handle, offset, len, piece, bytes)?;
            Ok(Answer::plain(Status::SUCCESS))
        }
        Err(status) => Ok(Answer::plain(status)),
    }
}

/// An application reads bytes of the image that its handle pins, which were taken of it before: they are the reply. It can't run out
/// of memory.
pub fn read_lent<C: Validator>(
    desk: &Desk<C>,
    app: u8,
    handle: u16,
    offset: u32,
    len: u32,
    slice: Bytes,
    bytes: &mut Bytes,
) -> Answer
    requires lent { AreRead handle offset len desk.now.tables slice.list }
    requires empty { bytes.old.list ≡ [] }
    ensures effect { (s : State) → s.tables ≡ desk.now.tables → s.apps ≡ desk.now.apps → IsEffect (quiet_effect result bytes.new.list) [] s (read_effect s app handle offset len) }
    ensures quiet { IsQuiet (quiet_effect result bytes.new.list) }
    // If there are bytes, they are the very buffer that was handed in, with its spare room.
    ensures lent { bytes.new.list ≢ [] → bytes.new ≡ slice }
{
    match piece(desk, app, handle, offset, len) {
        Ok(_) => {
            *bytes = slice;
            Answer::plain(Status::SUCCESS)
        }
        Err(status) => Answer::plain(status),
    }
}

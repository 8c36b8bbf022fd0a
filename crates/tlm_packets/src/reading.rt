//! Packets read: the value whose packet bytes are, and none where they are no packet of its kind.

ghost use Rattle.std.specs.Prelude.{◌≡◌, ◌+◌, ◌<◌, ◌≤◌, length, IfSome, is_some};
ghost use Rattle.tbl_kinds.specs.Heads.{has_name};
ghost use Rattle.tlm_packets.specs.Reading.{has_head, body_in, name_at, event_in, is_housekeeping, housekeeping_in, is_row, row_in, GivesIf, ReadsExactly};
ghost use Rattle.tlm_packets.specs.Spellings.{SpellsEvent, SpellsHousekeeping, SpellsRow};

use crate::event::EVENT_ID;
use crate::housekeeping::HOUSEKEEPING_ID;
use crate::registry::REGISTRY_ID;
use tbl_kinds::{Event, Housekeeping, Name, RegistryRow, Status, u16_at, u32_at};

/// The primary header and the time.
const HEAD_LEN: usize = 12;

/// Sequence flags 3, and the count 0.
const UNSEGMENTED: u16 = 0xC000;

/// The body of a packet of this message id that has `len` bytes after its headers.
fn body_of(bytes: &[u8], id: u16, len: usize) -> Option<&[u8]>
    requires { len ≤ 278 }
    ensures has_head { is_some result ≡ has_head id len bytes.now }
    ensures body { IfSome result (λ body. body.now ≡ body_in bytes.now) }
    ensures len { IfSome result (λ body. length body.now ≡ len) }
{
    if bytes.len() != HEAD_LEN + len {
        return None;
    }
    let is_of_id = u16_at(bytes, 0) == id && UNSEGMENTED <= u16_at(bytes, 2);
    if !is_of_id || u16_at(bytes, 4) as usize + 7 != bytes.len() {
        return None;
    }
    let (_, body) = bytes.split_at(HEAD_LEN);
    Some(body)
}

/// The name of the field of this width at a place.
fn name_of<const WIDTH: usize>(body: &[u8], place: usize) -> Option<Name<WIDTH>>
    requires within { place + WIDTH ≤ length body.now }
    requires narrow { WIDTH < 256 }
    ensures { GivesIf (has_name place WIDTH body.now) (name_at place WIDTH body.now) result }
{
    Name::exact(&body[place..place + WIDTH])
}

fn event_of(body: &[u8]) -> Event
    requires { length body.now ≡ 12 }
    ensures { result ≡ event_in body.now }
{
    Event {
        number: u16_at(body, 0),
        status: Status(u32_at(body, 2)),
        row: u16_at(body, 6),
        detail: u32_at(body, 8),
    }
}

/// Reads an event packet, all of the bytes. Its sequence count and its time are free. None where the bytes are no such packet.
pub fn read_event(bytes: &[u8]) -> Option<Event>
    ensures { ReadsExactly (SpellsEvent bytes.now) result }
{
    let body = body_of(bytes, EVENT_ID, 12)?;
    Some(event_of(body))
}

fn housekeeping_of(body: &[u8]) -> Option<Housekeeping>
    requires { length body.now ≡ 278 }
    ensures is { is_some result ≡ is_housekeeping body.now }
    ensures value { IfSome result (λ state. state ≡ housekeeping_in body.now) }
{
    if body[21] != 0 || body[22] != 0 || body[23] != 0 {
        return None;
    }
    let validated = name_of::<40>(body, 30)?;
    let updated = name_of::<40>(body, 70)?;
    let loaded_file = name_of::<64>(body, 110)?;
    let dumped_file = name_of::<64>(body, 174)?;
    let loaded = name_of::<40>(body, 238)?;
    Some(Housekeeping {
        accepted: body[0],
        refused: body[1],
        tables: u16_at(body, 2),
        loads: u16_at(body, 4),
        finished: u16_at(body, 6),
        check: u32_at(body, 8),
        verdict: u32_at(body, 12).cast_signed(),
        active: body[16],
        good: body[17],
        bad: body[18],
        requests: body[19],
        free: body[20],
        seconds: u32_at(body, 24),
        sub: u16_at(body, 28),
        validated,
        updated,
        loaded_file,
        dumped_file,
        loaded,
    })
}

/// Reads a housekeeping packet, all of the bytes. Its sequence count and its time are free. None where the bytes are no such
/// packet, as where a reserved byte or one after a name isn't zero.
pub fn read_housekeeping(bytes: &[u8]) -> Option<Housekeeping>
    ensures { ReadsExactly (SpellsHousekeeping bytes.now) result }
{
    let body = body_of(bytes, HOUSEKEEPING_ID, 278)?;
    housekeeping_of(body)
}

fn row_of(body: &[u8]) -> Option<RegistryRow>
    requires { length body.now ≡ 144 }
    ensures { GivesIf (is_row body.now) (row_in body.now) result }
{
    let name = name_of::<40>(body, 20)?;
    let owner = name_of::<20>(body, 60)?;
    let file = name_of::<64>(body, 80)?;
    Some(RegistryRow {
        size: u32_at(body, 0),
        check: u32_at(body, 4),
        count: u32_at(body, 8),
        seconds: u32_at(body, 12),
        sub: u16_at(body, 16),
        bits: body[18],
        validator: body[19],
        name,
        owner,
        file,
    })
}

/// Reads a registry packet, all of the bytes. Its sequence count and its time are free. None where the bytes are no such packet,
/// as where a byte after a name isn't zero.
pub fn read_registry(bytes: &[u8]) -> Option<RegistryRow>
    ensures { ReadsExactly (SpellsRow bytes.now) result }
{
    let body = body_of(bytes, REGISTRY_ID, 144)?;
    row_of(body)
}

ghost use Rattle.std.specs.Prelude.{◌≡◌, ◌+◌, ◌<◌, ◌≤◌, ◌^◌, ◌++◌, length, IfOk};
ghost use Rattle.tbl_kinds.specs.Transcript.{fields_of, entry_bytes, end_bytes};
ghost use Rattle.transcript.specs.Writing.{front_of, rest_of};

use tbl_kinds::{Entry, Memory};

/// How many bytes of an entry stand before those of its reply.
pub const FRONT_LENGTH: usize = 17;

/// How many bytes the end record has.
const END_LENGTH: usize = 13;

/// Writes what stands before the reply's bytes: place, actor, status, detail, and how many bytes the reply has.
#[inline]
fn write_front(front: &mut [u8], place: u32, entry: &Entry)
    requires count { length entry.now.reply.bytes.list < 2 ^ 32 }
    requires len { length front.old ≡ 17 }
    ensures { front.new ≡ front_of (fields_of place entry.now) }
{
    let count = entry.reply.bytes.bytes().len() as u32;
    let (number, rest) = front.split_at_mut(4);
    let (actor, rest) = rest.split_at_mut(1);
    let (status, rest) = rest.split_at_mut(4);
    let (detail, len) = rest.split_at_mut(4);
    number.copy_from_slice(&place.to_be_bytes());
    actor.copy_from_slice(&[entry.actor.number()]);
    status.copy_from_slice(&entry.reply.status.0.to_be_bytes());
    detail.copy_from_slice(&entry.reply.detail.to_be_bytes());
    len.copy_from_slice(&count.to_be_bytes());
}

/// Copies a piece to where it stands. Most replies have no bytes or no packets, and then nothing is called.
#[inline(always)]
fn copy_piece(place: &mut [u8], piece: &[u8])
    requires { length place.old ≡ length piece.now }
    ensures { place.new ≡ piece.now }
{
    if !piece.is_empty() {
        place.copy_from_slice(piece);
    }
}

/// Writes an entry with these bytes in the place of those of its reply.
#[inline]
fn write_around(out: &mut [u8], place: u32, entry: &Entry, between: &[u8])
    requires bytes { length entry.now.reply.bytes.list < 2 ^ 32 }
    requires packets { length entry.now.reply.packets.list < 2 ^ 32 }
    requires len { length out.old ≡ 21 + length between.now + length entry.now.reply.packets.list }
    ensures { out.new ≡ front_of (fields_of place entry.now) ++ between.now ++ rest_of (fields_of place entry.now) }
{
    let packets = entry.reply.packets.bytes();
    let (front, rest) = out.split_at_mut(FRONT_LENGTH);
    let (middle, rest) = rest.split_at_mut(between.len());
    let (count, end) = rest.split_at_mut(4);
    write_front(front, place, entry);
    copy_piece(middle, between);
    count.copy_from_slice(&(packets.len() as u32).to_be_bytes());
    copy_piece(end, packets);
}

/// The same, at the front of room that grows where it is too small.
#[inline(always)]
fn spell<'a>(
    room: &'a mut Vec<u8>,
    place: u32,
    entry: &Entry,
    between: &[u8],
) -> Result<&'a [u8], Memory>
    requires bytes { length entry.now.reply.bytes.list < 2 ^ 32 }
    requires packets { length entry.now.reply.packets.list < 2 ^ 32 }
    requires between { length between.now < 2 ^ 32 }
    ensures { IfOk result (λ spelling. spelling.now ≡ front_of (fields_of place entry.now) ++ between.now ++ rest_of (fields_of place entry.now)) }
{
    let len = FRONT_LENGTH + between.len() + 4 + entry.reply.packets.bytes().len();
    if room.len() < len {
        room.resize(len, 0)?;
    }
    let spelling = &mut room.as_mut_slice()[..len];
    write_around(spelling, place, entry, between);
    Ok(spelling)
}

/// The spelling of the entry that stands at this place of the history. It is put together in the room, which grows where it is too
/// small.
#[inline]
pub fn spell_entry<'a>(room: &'a mut Vec<u8>, place: u32, entry: &Entry) -> Result<&'a [u8], Memory>
    requires bytes { length entry.now.reply.bytes.list < 2 ^ 32 }
    requires packets { length entry.now.reply.packets.list < 2 ^ 32 }
    ensures { IfOk result (λ spelling. spelling.now ≡ entry_bytes place entry.now) }
{
    spell(room, place, entry, entry.reply.bytes.bytes())
}

/// What stands around the bytes of an entry's reply: what comes before them, and then its packets with their number. So a long reply
/// needn't be copied to be written.
#[inline(never)]
pub fn spell_around<'a>(
    room: &'a mut Vec<u8>,
    place: u32,
    entry: &Entry,
) -> Result<&'a [u8], Memory>
    requires bytes { length entry.now.reply.bytes.list < 2 ^ 32 }
    requires packets { length entry.now.reply.packets.list < 2 ^ 32 }
    ensures { IfOk result (λ spelling. spelling.now ≡ front_of (fields_of place entry.now) ++ rest_of (fields_of place entry.now)) }
{
    spell(room, place, entry, &[])
}

/// The end record: the status of the run, the number of entries, and the number of bytes of all their requests' spellings. It
/// takes no memory, so that it can't fail.
#[tactic(auto, unfolding(tbl_kinds::specs::Transcript::end_bytes))]
pub fn end_record(status: u8, count: u32, offset: u32) -> [u8; END_LENGTH]
    ensures { result ≡ end_bytes status count offset }
{
    let mut record = [0; END_LENGTH];
    let (mark, rest) = record.split_at_mut(4);
    mark.copy_from_slice(&u32::MAX.to_be_bytes());
    let (code, rest) = rest.split_at_mut(1);
    code.copy_from_slice(&[status]);
    let (entries, bytes) = rest.split_at_mut(4);
    entries.copy_from_slice(&count.to_be_bytes());
    bytes.copy_from_slice(&offset.to_be_bytes());
    record
}

//! Writes entries to a sink.

ghost use Rattle.std.specs.Prelude.{◌≡◌, ◌<◌, ◌^◌, ◌++◌, length};
ghost use Rattle.tbl_kinds.specs.Transcript.{fields_of, entry_bytes};
ghost use Rattle.transcript.specs.Writing.{front_of, rest_of};
ghost use Rattle.entry_output.specs.Writing.{TakesWhole, Writes, taken_of};

use tbl_kinds::Entry;
use tbl_outside::{Failed, Sink};
use transcript::{FRONT_LENGTH, spell_around, spell_entry};

/// From how many bytes on a reply is written from where it stands, which takes two further writes, and isn't copied.
const LONG_REPLY: usize = 4_096;

/// Why an entry wasn't written whole.
#[derive(Clone, Copy, PartialEq, Eq)]
pub enum WriteFault {
    /// The sink failed.
    Sink,
    /// Memory ran out for the spelling, and nothing was written.
    Memory,
}

/// Writes three pieces, one after the other.
#[tactic(auto, using(tbl_outside::proofs::Streams::written_more, tbl_outside::proofs::Streams::front_of_first, tbl_outside::proofs::Streams::front_of_second))]
fn write_pieces<K: Sink>(
    sink: &mut K,
    first: &[u8],
    second: &[u8],
    third: &[u8],
) -> Result<(), Failed>
    ensures { TakesWhole (first.now ++ second.now ++ third.now) (taken_of K.Sink sink.old) (taken_of K.Sink sink.new) result }
{
    sink.write(first)?;
    sink.write(second)?;
    sink.write(third)
}

/// Writes an entry from where its parts stand: the bytes of its reply, between what comes before them and what comes after them.
fn write_parts<K: Sink>(
    around: &[u8],
    place: u32,
    entry: &Entry,
    sink: &mut K,
) -> Result<(), Failed>
    requires { around.now ≡ front_of (fields_of place entry.now) ++ rest_of (fields_of place entry.now) }
    ensures { TakesWhole (entry_bytes place entry.now) (taken_of K.Sink sink.old) (taken_of K.Sink sink.new) result }
{
    let (front, rest) = around.split_at(FRONT_LENGTH);
    write_pieces(sink, front, entry.reply.bytes.bytes(), rest)
}

/// Writes the spelling of an entry whose reply is long.
#[inline(never)]
fn write_long<K: Sink>(
    room: &mut Vec<u8>,
    place: u32,
    entry: &Entry,
    sink: &mut K,
) -> Result<(), WriteFault>
    requires bytes { length entry.now.reply.bytes.list < 2 ^ 32 }
    requires packets { length entry.now.reply.packets.list < 2 ^ 32 }
    ensures { Writes (entry_bytes place entry.now) (taken_of K.Sink sink.old) (taken_of K.Sink sink.new) result }
{
    let Ok(around) = spell_around(room, place, entry) else {
        return Err(WriteFault::Memory);
    };
    match write_parts(around, place, entry, sink) {
        Ok(()) => Ok(()),
        Err(Failed) => Err(WriteFault::Sink),
    }
}

/// Writes the spelling of the entry that stands at this place of the history. It is put together in the room, which grows if it is too
/// small, unless the reply is long.
pub fn write_entry<K: Sink>(
    room: &mut Vec<u8>,
    place: u32,
    entry: &Entry,
    sink: &mut K,
) -> Result<(), WriteFault>
    requires bytes { length entry.now.reply.bytes.list < 2 ^ 32 }
    requires packets { length entry.now.reply.packets.list < 2 ^ 32 }
    ensures { Writes (entry_bytes place entry.now) (taken_of K.Sink sink.old) (taken_of K.Sink sink.new) result }
{
    if entry.reply.bytes.bytes().len() >= LONG_REPLY {
        return write_long(room, place, entry, sink);
    }
    match spell_entry(room, place, entry) {
        Ok(spelling) => match sink.write(spelling) {
            Ok(()) => Ok(()),
            Err(Failed) => Err(WriteFault::Sink),
        },
        Err(_) => Err(WriteFault::Memory),
    }
}

//! Writes entries to the sink.

ghost use Rattle.std.specs.Prelude.{◌<◌, ◌≤◌};
ghost use Rattle.tbl_kinds.specs.Transcript.{entry_bytes};
ghost use Rattle.tbl_core.specs.Log.{IsSmall};
ghost use Rattle.tbl_stream.specs.Places.{place_count};
ghost use Rattle.tbl_stream.specs.Writing.{Wrote, taken_of};

use crate::standing::Standing;
use entry_output::{WriteFault, write_entry};
use tbl_kinds::Entry;
use tbl_outside::Sink;

/// Writes the spelling of an entry, which is put together in `out` unless its reply is long; None if the sink took it.
pub fn write<K: Sink>(
    out: &mut Vec<u8>,
    place: u32,
    entry: &Entry,
    sink: &mut K,
) -> Option<Standing>
    requires place { place < place_count }
    requires small { IsSmall entry.now }
    ensures wrote { Wrote result (entry_bytes place entry.now) (taken_of K.Sink sink.old) (taken_of K.Sink sink.new) }
    ensures count { K.faults sink.old ≤ K.faults sink.new }
{
    match write_entry(out, place, entry, sink) {
        Ok(()) => None,
        Err(WriteFault::Sink) => Some(Standing::SinkFailed),
        Err(WriteFault::Memory) => Some(Standing::Unwritten),
    }
}

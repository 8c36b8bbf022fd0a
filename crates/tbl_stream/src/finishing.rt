//! Ends the transcript.

ghost use Rattle.std.specs.Prelude.{◌≡◌, ◌≤◌};
ghost use Rattle.tbl_kinds.specs.Transcript.{end_bytes};
ghost use Rattle.tbl_stream.specs.Finishing.{FinishesAs, FinishesUnbegun, WritesEnd, status_of, unbegun_status};
ghost use Rattle.tbl_stream.specs.Writing.{taken_of};

use crate::standing::Standing;
use tbl_core::StartFault;
use tbl_outside::{Failed, Sink};
use transcript::end_record;

/// The input was read to its end, and all of it was played.
pub const DONE: u8 = 0;

/// Memory ran out.
pub const NO_MEMORY: u8 = 1;

/// A read failed.
const SOURCE_FAILED: u8 = 3;

/// A write failed.
pub const SINK_FAILED: u8 = 4;

/// A bad record, or the beginning of one at the end of the input.
const BAD_RECORD: u8 = 5;

/// A byte after as many records as may be played.
const TOO_MANY_RECORDS: u8 = 6;

/// The bank failed in a boot.
pub const BANK_FAILED: u8 = 7;

/// The processor was reset in a boot.
const BANK_STOPPED: u8 = 8;

/// The engine has no room for a further request.
const FULL: u8 = 13;

/// The status of an end, by whether a read failed and whether no byte is left after the records that were played.
pub fn end_status(standing: Standing, read_failed: bool, is_whole: bool) -> u8
    ensures { result ≡ status_of standing read_failed is_whole }
{
    match standing {
        Standing::Open => {
            if read_failed {
                SOURCE_FAILED
            } else if is_whole {
                DONE
            } else {
                BAD_RECORD
            }
        }
        Standing::Bad => BAD_RECORD,
        Standing::TooMany => TOO_MANY_RECORDS,
        Standing::Full => FULL,
        Standing::BootFault => BANK_FAILED,
        Standing::BootStopped => BANK_STOPPED,
        Standing::SinkFailed => SINK_FAILED,
        Standing::Memory | Standing::Unwritten => NO_MEMORY,
    }
}

/// Writes an end record, and answers its status, or that the sink failed.
fn write_end<K: Sink>(status: u8, place: u32, offset: u32, sink: &mut K) -> u8
    ensures ends { WritesEnd status result (end_bytes status place offset) (taken_of K.Sink sink.old) (taken_of K.Sink sink.new) }
    ensures count { K.faults sink.old ≤ K.faults sink.new }
{
    match sink.write(&end_record(status, place, offset)) {
        Ok(()) => status,
        Err(Failed) => SINK_FAILED,
    }
}

/// Writes the end record, unless an entry before it wasn't written whole, and answers the status. It has the place that a further entry
/// would have, and how many bytes the records have that were played.
pub fn finish<K: Sink>(
    standing: Standing,
    read_failed: bool,
    is_whole: bool,
    ended: (u32, u32),
    sink: &mut K,
) -> u8
    ensures ends { FinishesAs standing read_failed is_whole result (λ status. end_bytes status ended.0 ended.1) (taken_of K.Sink sink.old) (taken_of K.Sink sink.new) }
    ensures count { K.faults sink.old ≤ K.faults sink.new }
{
    let status = end_status(standing, read_failed, is_whole);
    match standing {
        Standing::SinkFailed | Standing::Unwritten => status,
        Standing::Open
        | Standing::Bad
        | Standing::TooMany
        | Standing::Full
        | Standing::BootFault
        | Standing::BootStopped
        | Standing::Memory => write_end(status, ended.0, ended.1, sink),
    }
}

/// The status of a stream whose service didn't begin.
pub fn unbegun_status(fault: StartFault) -> u8
    ensures { result ≡ unbegun_status fault }
{
    match fault {
        StartFault::Memory => NO_MEMORY,
        StartFault::BootFault => BANK_FAILED,
        StartFault::BootStopped => BANK_STOPPED,
    }
}

/// Ends a stream whose service didn't begin: its transcript is only the end record. If memory ran out there is none.
pub fn finish_unbegun<K: Sink>(fault: StartFault, sink: &mut K) -> u8
    ensures { FinishesUnbegun fault result (taken_of K.Sink sink.old) (taken_of K.Sink sink.new) }
{
    match fault {
        StartFault::Memory => NO_MEMORY,
        StartFault::BootFault => write_end(BANK_FAILED, 0, 0, sink),
        StartFault::BootStopped => write_end(BANK_STOPPED, 0, 0, sink),
    }
}

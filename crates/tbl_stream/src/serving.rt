//! A service from its start to the end of its input.

ghost use Rattle.std.specs.Prelude.{◌≡◌, ◌≤◌, [], None};
ghost use Rattle.tbl_kinds.specs.Admitted.{Admitted};
ghost use Rattle.tbl_kinds.specs.Places.{bank_size};
ghost use Rattle.tbl_outside.specs.Streams.{ReadsToEnd};
ghost use Rattle.tbl_core.specs.Service.{core_of};
ghost use Rattle.tbl_session.specs.Openings.{Opening};
ghost use Rattle.tbl_session.specs.Session.{ran};
ghost use Rattle.tbl_history.specs.Serving.{Serves};
ghost use Rattle.tbl_stream.specs.Opening.{IsFresh, MayStart, opening_by};
ghost use Rattle.tbl_stream.specs.Serving.{Lives};
ghost use Rattle.tbl_stream.specs.Words.{Asks, IsUnknown};

use crate::finishing::finish_unbegun;
use crate::opening::begin;
use crate::reading::read_all;
use crate::service::Service;
use crate::stream::Stream;
use crate::words::admitted_by;
use tbl_kinds::{Admit, Bytes};
use tbl_outside::{Back, Bank, Sink, Source, Validator};

/// The words aren't those that the program knows.
const USAGE: u8 = 2;

/// Plays a stream from its start.
fn play<B: Bank, C: Validator, S: Source, K: Sink>(
    stream: &mut Stream<B, C>,
    limit: Option<u32>,
    source: &mut S,
    sink: &mut K,
) -> u8
    requires { IsFresh limit stream.old }
    ensures lives { (o : Opening B C) → Serves B.Bank C.verdict o (core_of [] stream.old.played.engine)
        → Lives limit B.Bank C.verdict o (ran S.Source K.Sink (source.old, sink.old) (source.new, sink.new) (result, stream.new.played.engine.state.store.bank)) }
    ensures once { ReadsToEnd (S.how_far source.old) (S.how_far source.new) }
{
    let read_failed = read_all(stream, source, sink);
    stream.finish(read_failed, sink)
}

/// Plays the records of a source, and no more of them than the limit, if there is one: boots over the bank, plays each record as it comes
/// in, writes its entry to the sink at once, and then the end record. It keeps nothing of what it has written. Returns the status and the
/// bank: 6 means that bytes follow after as many records as the limit.
pub fn play_records<S: Source, K: Sink, B: Bank, C: Validator>(
    source: &mut S,
    sink: &mut K,
    service: Service<B, C>,
    admit: Admit,
    limit: Option<u32>,
) -> (u8, B)
    requires { MayStart B.Bank C.Validator service }
    ensures lives { Lives limit B.Bank C.verdict (opening_by B.Bank service admit) (ran S.Source K.Sink (source.old, sink.old) (source.new, sink.new) result) }
    ensures once { ReadsToEnd (S.how_far source.old) (S.how_far source.new) }
    ensures room { bank_size ≤ B.size result.1 }
{
    match begin(service, admit, limit) {
        Err(Back { cause, bank }) => (finish_unbegun(cause, sink), bank),
        Ok(mut stream) => {
            let status = play(&mut stream, limit, source, sink);
            (status, stream.end().end())
        }
    }
}

/// Serves what comes in: boots over the bank, plays each record of the source, and writes its entry to the sink at once. It ends with the
/// input, and keeps nothing of what it has written. With no word table files come from anywhere; with `admit` and two lists they come only
/// from those spacecraft and processors. The status is that of a session that is played, with two differences: 6 doesn't come, and 13 means
/// that a table has had 4,294,967,293 images, so that only a reset would have room, or that 2^61 - 1 requests were played.
pub fn serve<S: Source, K: Sink, B: Bank, C: Validator>(
    words: &[Bytes],
    source: &mut S,
    sink: &mut K,
    service: Service<B, C>,
) -> (u8, B)
    requires { MayStart B.Bank C.Validator service }
    ensures usage { result.0 ≡ 2 → IsUnknown words.now }
    ensures unknown { IsUnknown words.now → result.0 ≡ 2 }
    ensures untouched { IsUnknown words.now → (source.new ≡ source.old) × (sink.new ≡ sink.old) × (result.1 ≡ service.bank) }
    ensures lives { (admit : Admitted) → Asks words.now admit
        → Lives None B.Bank C.verdict (opening_by B.Bank service admit) (ran S.Source K.Sink (source.old, sink.old) (source.new, sink.new) result) }
    ensures room { bank_size ≤ B.size result.1 }
{
    match admitted_by(words) {
        Some(admit) => play_records(source, sink, service, admit, None),
        None => (USAGE, service.bank),
    }
}

//! A session as its words say.

ghost use Rattle.std.specs.Prelude.{◌≡◌, ◌≤◌};
ghost use Rattle.tbl_kinds.specs.Admitted.{Admitted};
ghost use Rattle.tbl_kinds.specs.Places.{bank_size};
ghost use Rattle.tbl_outside.specs.Streams.{ReadsToEnd};
ghost use Rattle.tbl_session.specs.Session.{ran};
ghost use Rattle.tbl_stream.specs.Opening.{MayStart, opening_by};
ghost use Rattle.tbl_top.specs.Words.{AskNothing, Asks, IsUnknown, Outcome, Completes, ReadsNothing};
ghost use Rattle.tbl_top.specs.declared.words.Word.{Word as CommandWord};

use crate::crewing::run_crew;
use crate::session::run_in_order;
use crate::watching::run_watch;
use crate::words::{Telling, threads_of};
use std::sync::Wait;
use std::thread::Threads;
use tbl_kinds::Bytes;
use tbl_outside::{Bank, Gate, Sink, Source, Validator};
use tbl_stream::Service;

/// Does what the words ask for. `play` and `crew` boot over the bank as after a reset of the processor, read session records from the
/// source, play them, and write the transcript to the sink: with `play` in order, as they come in, with `crew` with a thread for each
/// actor, once all of them were read. Table files may come from the spacecraft and processors that the words admit. `watch` plays as `crew`
/// does, and instead of the transcript it writes a report of the images that application 16 got. `store` reads only the bank, and writes
/// the text of its store. `make` reads a description from the source and writes its table file, and `describe` reads a table file and
/// writes its description; neither reads nor writes the bank. The validation functions may be boxes or of any one type. The gate is called
/// at each turn of a thread. Returns the status, which docs/reference/statuses.md lists, and the bank.
pub fn run<
    R: Threads + Wait + Sync,
    S: Source,
    K: Sink,
    B: Bank + Send,
    C: Validator + Send,
    G: Gate + Sync,
>(
    rt: &R,
    words: &[Bytes],
    source: &mut S,
    sink: &mut K,
    service: Service<B, C>,
    gate: &G,
) -> (u8, B)
    requires may_start { MayStart B.Bank C.Validator service }
    // 2 comes only if it doesn't know the words. It always comes then, unless memory runs out for the word after `describe`. Nothing is
    // read or written then.
    ensures usage { result.0 ≡ 2 → AskNothing words.now }
    ensures unknown { AskNothing words.now → IsUnknown words.now result.0 }
    ensures untouched { AskNothing words.now → (source.new ≡ source.old) × (sink.new ≡ sink.old) × (result.1 ≡ service.bank) }

    // If the word needs no records, the source isn't read. Nothing is read after the end of the input or after a read that failed.
    ensures unread { (word : CommandWord) (admit : Admitted) → Asks words.now word admit → ReadsNothing word → source.new ≡ source.old }
    ensures once { ReadsToEnd (S.how_far source.old) (S.how_far source.new) }

    // What each word does, from the history that is served to the status and the bytes that the sink took.
    ensures outcome { (word : CommandWord) (admit : Admitted) → Asks words.now word admit
        → Outcome word B.Bank C.verdict (opening_by B.Bank service admit) (ran S.Source K.Sink (source.old, sink.old) (source.new, sink.new) result) }

    // Nothing is given up early: a session's records and nothing else are played to their end, and a store is written whole, unless
    // something outside failed, a boot was stopped, or memory ran out.
    ensures complete { (word : CommandWord) (admit : Admitted) → Asks words.now word admit
        → Completes word B.Bank service.bank (ran S.Source K.Sink (source.old, sink.old) (source.new, sink.new) result) }

    // The bank that comes back has room for a further call.
    ensures room { bank_size ≤ B.size result.1 }
{
    match threads_of(words) {
        Some((Telling::Transcript, admit)) => run_crew(rt, source, sink, service, admit, gate),
        Some((Telling::Report, admit)) => run_watch(rt, source, sink, service, admit, gate),
        None => run_in_order(words, source, sink, service),
    }
}

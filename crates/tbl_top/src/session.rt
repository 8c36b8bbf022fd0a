//! A session from its first byte to the end of its transcript.

ghost use Rattle.std.specs.Prelude.{◌≡◌, ℕ, ◌+◌, ◌≤◌};
ghost use Rattle.tbl_kinds.specs.Admitted.{Admitted};
ghost use Rattle.tbl_kinds.specs.Places.{bank_size};
ghost use Rattle.tbl_kinds.specs.Records.{record_limit};
ghost use Rattle.tbl_outside.specs.Streams.{ReadsToEnd};
ghost use Rattle.tbl_session.specs.Session.{ran};
ghost use Rattle.tbl_stream.specs.Opening.{MayStart, opening_by};
ghost use Rattle.tbl_top.specs.Words.{AskForThreads, Asks, HasThreads, IsUnknown, Outcome, Completes, ReadsNothing};
ghost use Rattle.tbl_top.specs.declared.words.Word.{Word as CommandWord};
ghost use Rattle.tbl_top.specs.declared.words.Word.TheVariants.{Drill};

use crate::collecting::RECORD_LIMIT;
use crate::drilling::run_drill;
use crate::listing::list_store;
use crate::words::{Word, word_of};
use maker_words::{describe_input, make_input};
use tbl_kinds::{Admit, Bytes};
use tbl_outside::{Bank, Sink, Source, Validator};
use tbl_stream::{NO_MEMORY, Service, play_records};

/// The words aren't those that the program knows.
const USAGE: u8 = 2;

/// Does what one of the words asks for, except for those that need threads, which it answers with 2.
fn do_word<S: Source, K: Sink, B: Bank, C: Validator>(
    word: Word,
    admit: Admit,
    source: &mut S,
    sink: &mut K,
    service: Service<B, C>,
) -> (u8, B)
    requires may_start { MayStart B.Bank C.Validator service }
    requires few { (seed rounds : ℕ) → word ≡ Drill seed rounds → 9 + rounds ≤ record_limit }
    ensures usage { result.0 ≡ 2 → HasThreads word }
    ensures threads { HasThreads word → (result.0 ≡ 2) × (source.new ≡ source.old) × (sink.new ≡ sink.old) × (result.1 ≡ service.bank) }
    ensures unread { ReadsNothing word → source.new ≡ source.old }
    ensures once { ReadsToEnd (S.how_far source.old) (S.how_far source.new) }
    ensures outcome { ¬ HasThreads word → Outcome word B.Bank C.verdict (opening_by B.Bank service admit) (ran S.Source K.Sink (source.old, sink.old) (source.new, sink.new) result) }
    ensures complete { ¬ HasThreads word → Completes word B.Bank service.bank (ran S.Source K.Sink (source.old, sink.old) (source.new, sink.new) result) }
    ensures room { bank_size ≤ B.size result.1 }
{
    let alloc = service.alloc;
    match word {
        Word::Play => play_records(source, sink, service, admit, Some(RECORD_LIMIT)),
        Word::Store => {
            let mut bank = service.bank;
            let status = list_store(alloc, &mut bank, sink);
            (status, bank)
        }
        Word::Drill { seed, rounds } => run_drill(seed, rounds, sink, service, admit),
        Word::Make => (make_input(alloc, source, sink), service.bank),
        Word::Describe { shape } => (describe_input(alloc, &shape, source, sink), service.bank),
        Word::Crew => (USAGE, service.bank),
        Word::Watch => (USAGE, service.bank),
    }
}

/// Does what `run` does with each word but `crew` and `watch`, which it answers with 2. It takes no handle for waiting.
pub fn run_in_order<S: Source, K: Sink, B: Bank, C: Validator>(
    words: &[Bytes],
    source: &mut S,
    sink: &mut K,
    service: Service<B, C>,
) -> (u8, B)
    requires may_start { MayStart B.Bank C.Validator service }
    ensures usage { result.0 ≡ 2 → AskForThreads words.now }
    ensures unknown { AskForThreads words.now → IsUnknown words.now result.0 }
    ensures untouched { AskForThreads words.now → (source.new ≡ source.old) × (sink.new ≡ sink.old) × (result.1 ≡ service.bank) }
    ensures unread { (word : CommandWord) (admit : Admitted) → Asks words.now word admit → ReadsNothing word → source.new ≡ source.old }
    ensures once { ReadsToEnd (S.how_far source.old) (S.how_far source.new) }
    ensures outcome { (word : CommandWord) (admit : Admitted) → Asks words.now word admit → ¬ HasThreads word
        → Outcome word B.Bank C.verdict (opening_by B.Bank service admit) (ran S.Source K.Sink (source.old, sink.old) (source.new, sink.new) result) }
    ensures complete { (word : CommandWord) (admit : Admitted) → Asks words.now word admit → ¬ HasThreads word
        → Completes word B.Bank service.bank (ran S.Source K.Sink (source.old, sink.old) (source.new, sink.new) result) }
    ensures room { bank_size ≤ B.size result.1 }
{
    let Ok(found) = word_of(service.alloc, words) else {
        return (NO_MEMORY, service.bank);
    };
    match found {
        Some((word, admit)) => do_word(word, admit, source, sink, service),
        None => (USAGE, service.bank),
    }
}

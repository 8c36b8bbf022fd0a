//! Two runs, one after the other, with a reset between them: what the second has of the first.

ghost use Rattle.std.specs.Prelude.{◌≡◌, ◌⊎◌, ◌≤◌, ◌<◌, ◌^◌, All};
ghost use Rattle.tbl_kinds.specs.Admitted.{Admitted};
ghost use Rattle.tbl_kinds.specs.Places.{bank_size};
ghost use Rattle.tbl_outside.specs.declared.validator.KitEntry.{KitEntry as Entry};
ghost use Rattle.tbl_session.specs.Session.{IsEnded, opening_of, ran, state_from};
ghost use Rattle.tbl_top.specs.Histories.{PlaysSession, Runs};
ghost use Rattle.tbl_top.specs.Recovered.{RecoversBoth, RecoversLast, StaysUp};
ghost use Rattle.tbl_stream.specs.Opening.{MayStart, opening_by};
ghost use Rattle.tbl_top.specs.Words.{Asks};
ghost use Rattle.tbl_top.specs.declared.words.Word.{Word as CommandWord};

use crate::running::run;
use std::snapshot::Snapshot;
use std::sync::Wait;
use std::thread::Threads;
use tbl_kinds::Bytes;
use tbl_outside::{Bank, Gate, KitEntry, Sink, Source, Validator};
use tbl_stream::Service;

/// What a run is given beside its service: its words, the source that it reads and the sink that it writes to.
#[derive(Drop)]
pub struct Session<S: Source, K: Sink> {
    pub words: Vec<Bytes>,
    pub source: S,
    pub sink: K,
}

/// A reset of the processor: what it leaves of a bank is a bank of its own. What it needs of memory it has before.
pub trait Reset<B: Bank, N: Bank> {
    ghost use Rattle.std.specs.Prelude.{◌≤◌};
    ghost use Rattle.tbl_kinds.specs.Places.{bank_size};

    /// Whether it comes between two calls of the bank, and never inside one or before.
    ghost between_calls: { Type 0 };

    /// What is left of the bank. Its bytes may have been left at any moment since the bank was as the snapshot says, inside a write or
    /// between two; or, if the reset comes between two calls, at this one.
    fn reset(&mut self, bank: B, since: &Snapshot<B>) -> N
        requires { bank_size ≤ B.size bank }
        ensures left { B.tells_moments → N.tells → B.clock since.now.value ≤ B.clock bank → B.left_since bank (B.clock since.now.value) (N.now result) }
        ensures left_now { between_calls → B.tells_moments → N.tells → B.may_leave bank (N.now result) }
        ensures room { bank_size ≤ N.size result };
}

/// A reset that comes between two calls of the bank: it leaves what the bank holds, whatever bank it is.
#[derive(Drop)]
pub struct BetweenCalls;

impl<B: Bank> Reset<B, B> for BetweenCalls {
    ghost between_calls = { Unit {0} };

    fn reset(&mut self, bank: B, _since: &Snapshot<B>) -> B {
        bank
    }
}

/// Does what `run` does with these words, and after a reset what it does with others over the bank that the reset left. Returns the status
/// of the first, and the status and the bank of the second. Each critical table that the second one registers comes back from the history
/// that the first one served, whatever its order and its threads were, as the law of recovery says.
pub fn run_again<
    R: Threads + Wait + Sync,
    S: Source,
    K: Sink,
    B: Bank + Send,
    C: Validator + Send,
    N: Bank + Send,
    D: Validator + Send,
    T: Reset<B, N>,
    G: Gate + Sync,
>(
    rt: &R,
    first: &mut Session<S, K>,
    service: Service<B, C>,
    reset: &mut T,
    second: &mut Session<S, K>,
    next_kit: Vec<KitEntry<D>>,
    gate: &G,
) -> (u8, (u8, N))
    requires may_start { MayStart B.Bank C.Validator service }
    requires next_asked { All (λ (e : Entry D). D.asked e.check < 2 ^ 62) next_kit.items }
    // Each run does what its word says. Each critical table that the second one registers comes back from the first one's history:
    // from the place where the reset came, and if that was after a session that ended, from its end.
    ensures recovers { (bank_then : B) × (next : N)
        × (T.between_calls → B.tells_moments → N.tells → B.may_leave bank_then (N.now next))
        × ((word next_word : CommandWord) (admit next_admit : Admitted) → Asks first.old.words.items word admit → Asks second.old.words.items next_word next_admit
        → (run : Runs word B.Bank C.verdict (opening_by B.Bank service admit)
        (ran S.Source K.Sink (first.old.source, first.old.sink) (first.new.source, first.new.sink) (result.0, bank_then)))
        × (next_run : Runs next_word N.Bank D.verdict (opening_of N.Bank next next_kit.items next_admit)
        (ran S.Source K.Sink (second.old.source, second.old.sink) (second.new.source, second.new.sink) result.1))
        × (PlaysSession word → B.tells_moments → N.tells
        → RecoversBoth (state_from (B.now service.bank) service.kit.items admit) run.entries (N.now next) next_kit.items next_admit next_run.entries)
        × (PlaysSession word → B.tells_moments → N.tells → B.may_leave bank_then (N.now next) → IsEnded result.0 ⊎ StaysUp run.entries
        → RecoversLast (state_from (B.now service.bank) service.kit.items admit) run.entries (N.now next) next_kit.items next_admit next_run.entries)) }
    ensures same_words { (first.new.words ≡ first.old.words) × (second.new.words ≡ second.old.words) }
    ensures room { bank_size ≤ N.size result.1.1 }
{
    let alloc = service.alloc;
    let began = Snapshot::of(&service.bank);
    let (status, bank) = run(
        rt,
        &first.words,
        &mut first.source,
        &mut first.sink,
        service,
        gate,
    );
    let next = Service {
        alloc,
        bank: reset.reset(bank, &began),
        kit: next_kit,
    };
    (
        status,
        run(
            rt,
            &second.words,
            &mut second.source,
            &mut second.sink,
            next,
            gate,
        ),
    )
}

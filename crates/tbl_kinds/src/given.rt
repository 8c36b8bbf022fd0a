//! What came from outside in a request, as its entry keeps it.

ghost use Rattle.std.specs.Prelude.{◌≡◌, IfSome, IfNone};
ghost use Rattle.tbl_kinds.specs.Given.{nothing_given};
ghost use Rattle.tbl_kinds.specs.Notes.{IsPlain};

use crate::note::{BankNote, Kept, Note, Outcome, Outside};
use std::marker::Model;

/// Up to two verdicts in few bytes.
#[derive(Drop)]
struct Verdicts {
    first: i32,
    second: i32,
    has_first: bool,
    has_second: bool,
}

impl Model for Verdicts {
    ghost use Rattle.std.specs.Prelude.{List, Option, [], ◌∷◌};
    ghost use Rattle.std.proofs.Common.{ℤ};
    ghost use Rattle.tbl_kinds.specs.Given.{judged};

    ghost Value = { List (Option ℤ) };

    ghost view = { λ v. judged v.has_first v.first ∷ judged v.has_second v.second ∷ [] };
}

impl Verdicts {
    fn of(verdicts: [Option<i32>; 2]) -> Verdicts
        ensures { result ≡ verdicts }
    {
        let [first, second] = verdicts;
        Verdicts {
            first: first.unwrap_or(0),
            second: second.unwrap_or(0),
            has_first: first.is_some(),
            has_second: second.is_some(),
        }
    }

    fn list(&self) -> [Option<i32>; 2]
        ensures { result ≡ self.now }
    {
        [
            self.has_first.then_some(self.first),
            self.has_second.then_some(self.second),
        ]
    }
}

/// What an entry keeps of what came from outside.
#[derive(Drop)]
enum Parts {
    Untouched(Verdicts),
    /// So many calls of the store were done, and nothing else is to be told of them.
    Done { count: u8, verdicts: Verdicts },
    Whole(Box<Outside>),
}

/// What came from outside in a request. It takes no memory of its own where the note takes none.
#[derive(Drop)]
pub struct Given {
    parts: Parts,
}

impl Model for Given {
    ghost use Rattle.tbl_kinds.specs.Given.{Given as Both};

    ghost Value = { Both };

    ghost use Rattle.tbl_kinds.specs.KeptGiven.{given_in};

    ghost view = { λ g. given_in g.parts };
}

impl Given {
    /// Nothing: no call of the store was made, and no verdict was given.
    pub fn nothing() -> Given
        ensures { result ≡ nothing_given }
    {
        Given {
            parts: Parts::Untouched(Verdicts::of([None, None])),
        }
    }

    /// This note and these verdicts. It takes no memory.
    pub fn of(note: Note, verdicts: [Option<i32>; 2]) -> Given
        ensures { result ≡ record { note = note; verdicts = verdicts } }
    {
        let parts = match note.kept() {
            Kept::Untouched => Parts::Untouched(Verdicts::of(verdicts)),
            Kept::Done(count) => Parts::Done {
                count,
                verdicts: Verdicts::of(verdicts),
            },
            Kept::Whole(mut outside) => {
                outside.verdicts = verdicts;
                Parts::Whole(outside)
            }
        };
        Given { parts }
    }

    /// How the calls of the store went.
    pub fn outcome(&self) -> Outcome
        ensures { result ≡ self.now.note.outcome }
    {
        match &self.parts {
            Parts::Untouched(_) => Outcome::Untouched,
            Parts::Done { .. } => Outcome::Done,
            Parts::Whole(outside) => outside.note.outcome,
        }
    }

    /// How many calls of the store were done.
    pub fn done_count(&self) -> u8
        ensures { result ≡ self.now.note.done }
    {
        match &self.parts {
            Parts::Untouched(_) => 0,
            Parts::Done { count, .. } => *count,
            Parts::Whole(outside) => outside.note.done,
        }
    }

    /// The whole note; none where it takes no memory.
    pub fn touched(&self) -> Option<&BankNote>
        ensures some { IfSome result (λ note. note.now ≡ self.now.note) }
        ensures none { IfNone result (IsPlain self.now.note) }
    {
        match &self.parts {
            Parts::Whole(outside) => {
                let outside: &Outside = outside;
                Some(&outside.note)
            }
            _ => None,
        }
    }

    /// The verdicts that validation functions gave, in their order.
    pub fn verdicts(&self) -> [Option<i32>; 2]
        ensures { result ≡ self.now.verdicts }
    {
        match &self.parts {
            Parts::Untouched(verdicts) => verdicts.list(),
            Parts::Done { verdicts, .. } => verdicts.list(),
            Parts::Whole(outside) => outside.verdicts,
        }
    }
}

ghost use Rattle.std.specs.Prelude.{◌≡◌, IfSome, IfNone};
ghost use Rattle.tbl_kinds.specs.Notes.{untouched, all_done, IsPlain};
ghost use Rattle.tbl_kinds.specs.KeptNotes.{note_in};

use crate::bytes::Bytes;
use crate::slots::Slots;
use std::marker::Model;

/// How a request's calls of the store went, before any boot in it.
#[derive(Clone, Copy, PartialEq, Eq)]
pub enum Outcome {
    /// There was no call.
    Untouched,
    /// Each call was done.
    Done,
    /// The last call met a fault of the bank.
    Failed,
    /// The processor was reset inside the last call.
    Stopped,
}

/// What a request did to the Critical Data Store.
#[derive(Drop)]
pub struct BankNote {
    pub outcome: Outcome,
    /// How many calls of the store were done.
    pub done: u8,
    /// Whether the write that ended them was of a gate byte.
    pub gate: bool,
    /// Whether that gate byte was the one of a doubtful block that is closed before another is made.
    pub old: bool,
    /// Whether a boot in this request failed or was stopped.
    pub ended: bool,
    /// Whether that boot was stopped by a further reset, and didn't fail.
    pub stopped: bool,
    /// The image that a restore gave.
    pub restored: Option<Bytes>,
    /// Where a restore found its block torn: the check word that is kept, times 65,536, plus that of the bytes.
    pub torn: u32,
    /// The doubtful slots that a boot in this request found open.
    pub found: Slots,
}

impl BankNote {
    /// No call of the store was made.
    pub fn untouched() -> BankNote
        ensures { result ≡ untouched }
    {
        BankNote {
            outcome: Outcome::Untouched,
            done: 0,
            gate: false,
            old: false,
            ended: false,
            stopped: false,
            restored: None,
            torn: 0,
            found: Slots::make(),
        }
    }
}

/// What came from outside in a request: what it did to the Critical Data Store, and the verdicts that validation functions gave
/// in it, in their order.
#[derive(Drop)]
pub struct Outside {
    pub note: BankNote,
    pub verdicts: [Option<i32>; 2],
}

/// What a note keeps.
#[derive(Drop)]
pub(crate) enum Kept {
    Untouched,
    /// So many calls of the store were done, and nothing else is to be told of them.
    Done(u8),
    Whole(Box<Outside>),
}

/// A note of a request. Nearly every request makes no call of the store, or calls that were all done, and its note takes no memory
/// of its own. Where it takes some, that has room for verdicts too, which the note leaves alone.
#[derive(Drop)]
pub struct Note {
    kept: Kept,
}

impl Model for Note {
    ghost use Rattle.tbl_kinds.specs.declared.note.BankNote.{BankNote};

    ghost Value = { BankNote };

    ghost use Rattle.tbl_kinds.specs.KeptNotes.{note_in};

    ghost view = { λ n. note_in n.kept };
}

impl Note {
    /// The note of a request that made no call of the store.
    pub fn untouched() -> Note
        ensures { result ≡ untouched }
    {
        Note {
            kept: Kept::Untouched,
        }
    }

    /// So many calls of the store were done, and nothing else is to be told of them.
    pub fn done(count: u8) -> Note
        ensures { result ≡ all_done count }
    {
        Note {
            kept: Kept::Done(count),
        }
    }

    /// Any note, in memory that was taken before.
    pub fn of(outside: Box<Outside>) -> Note
        ensures { result ≡ outside.value.note }
    {
        Note {
            kept: Kept::Whole(outside),
        }
    }

    /// The whole note in its memory, to be told more; none where it takes no memory.
    pub fn taken(self) -> Option<Box<Outside>>
        ensures some { IfSome result (λ outside. outside.value.note ≡ self) }
        ensures none { IfNone result (IsPlain self) }
    {
        match self.kept {
            Kept::Whole(outside) => Some(outside),
            _ => None,
        }
    }

    /// How the calls of the store went.
    pub fn outcome(&self) -> Outcome
        ensures { result ≡ self.now.outcome }
    {
        match &self.kept {
            Kept::Untouched => Outcome::Untouched,
            Kept::Done(_) => Outcome::Done,
            Kept::Whole(outside) => outside.note.outcome,
        }
    }

    /// The whole note; none where it takes no memory.
    pub fn touched(&self) -> Option<&BankNote>
        ensures some { IfSome result (λ note. note.now ≡ self.now) }
        ensures none { IfNone result (IsPlain self.now) }
    {
        match &self.kept {
            Kept::Whole(outside) => {
                let outside: &Outside = outside;
                Some(&outside.note)
            }
            _ => None,
        }
    }

    /// What is kept of it.
    pub(crate) fn kept(self) -> Kept
        ensures { note_in result ≡ self }
    {
        self.kept
    }
}

//! Notes of how a request's calls of the store went. Their memory is taken before the first call, so that nothing is missing
//! once the bank was called.

ghost use Rattle.std.specs.Prelude.{◌≡◌, ◌+◌, ◌<◌, [], length, Some, IfOk};
ghost use Rattle.tbl_kinds.specs.Notes.{untouched};
ghost use Rattle.store_requests.specs.Called.{broken_note, broken_status, done_note, call_note, call_status, torn_note, IsFresh, IsTold, NotesImage, CanKeep};

use crate::effect::Effect;
use cds_store::BankFault;
use std::alloc::Global;
use tbl_kinds::{Answer, BankNote, Bytes, Memory, Note, Outcome, Outside, Status};

/// Memory for a note, which has no call yet.
pub fn note_room(alloc: Global) -> Result<Box<Outside>, Memory>
    ensures { IfOk result IsFresh }
{
    let outside = Outside {
        note: BankNote::untouched(),
        verdicts: [None, None],
    };
    Ok(Box::new(alloc, outside)?)
}

/// One call more is done.
pub(crate) fn note_done(outside: &mut Outside)
    requires { outside.now.note.done < 255 }
    ensures { outside.exit.now.note ≡ done_note outside.entry.now.note }
{
    outside.note.outcome = Outcome::Done;
    outside.note.done += 1;
}

/// The next call broke off.
pub(crate) fn note_broken(outside: &mut Outside, fault: BankFault)
    ensures { outside.exit.now.note ≡ broken_note fault outside.entry.now.note }
{
    let (outcome, gate, old) = match fault {
        BankFault::Fault { gate, old } => (Outcome::Failed, gate, old),
        BankFault::Stopped { gate, old } => (Outcome::Stopped, gate, old),
    };
    outside.note.outcome = outcome;
    outside.note.gate = gate;
    outside.note.old = old;
}

// ---- a restore, which is the only call of its request

/// Memory for the note of a restore: for the note, and for the image that it may give.
#[derive(Drop)]
pub(crate) struct RestoreNote {
    pub kept: Bytes,
    pub note: Box<Outside>,
}

impl RestoreNote {
    /// Nothing was restored yet, and there is room for an image of this size.
    pub(crate) fn make(alloc: Global, size: usize) -> Result<RestoreNote, Memory>
        ensures { IfOk result (CanKeep size) }
    {
        Ok(RestoreNote {
            kept: Bytes::make(alloc, size)?,
            note: note_room(alloc)?,
        })
    }

    /// It gave this image.
    pub(crate) fn given(self, image: &[u8]) -> Note
        requires { CanKeep (length image.now) self }
        ensures { NotesImage image.now result }
    {
        let RestoreNote { mut kept, mut note } = self;
        kept.append(image);
        note.note.restored = Some(kept);
        note_done(&mut note);
        Note::of(note)
    }
}

/// It gave no image: the block is torn, and the note has its check words.
pub(crate) fn note_torn(mut note: Box<Outside>, words: u32) -> Note
    requires { IsFresh note }
    ensures { result ≡ torn_note words }
{
    note.note.torn = words;
    note_done(&mut note);
    Note::of(note)
}

// ---- the last call of a request

/// It is done, and the request is answered so.
pub(crate) fn done(answer: Answer, mut note: Box<Outside>) -> Effect
    requires { note.value.note.done < 255 }
    ensures { IsTold result answer.status answer.detail [] (done_note note.value.note) }
{
    note_done(&mut note);
    Effect::noted(answer, Note::of(note))
}

/// It broke off. If it was stopped, the service boots after it.
pub(crate) fn broken(fault: BankFault, mut note: Box<Outside>) -> Effect
    ensures { IsTold result (broken_status fault) 0 [] (broken_note fault note.value.note) }
{
    note_broken(&mut note, fault);
    let status = match fault {
        BankFault::Fault { .. } => Status::ERR_CDS_FAULT,
        BankFault::Stopped { .. } => Status::INFO_STOPPED,
    };
    Effect::noted(Answer::plain(status), Note::of(note))
}

/// It was the only one, and ended so.
pub(crate) fn called(ended: Result<(), BankFault>, note: Box<Outside>) -> Effect
    requires { IsFresh note }
    ensures { IsTold result (call_status ended) 0 [] (call_note ended untouched) }
{
    match ended {
        Ok(()) => done(Answer::plain(Status::SUCCESS), note),
        Err(fault) => broken(fault, note),
    }
}

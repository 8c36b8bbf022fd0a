//! What a request did that calls the store, as a value.

ghost use Rattle.std.specs.Prelude.{◌≡◌, []};
ghost use Rattle.tbl_kinds.specs.Notes.{untouched};
ghost use Rattle.request_effects.specs.Reports.{nothing_reported};
ghost use Rattle.store_requests.specs.Called.{IsTold, bytes_in};
ghost use Rattle.store_requests.specs.Copying.{told_in};

use std::marker::Model;
use tbl_kinds::{Answer, Bytes, Note, Reply, Status};

/// What a request did that calls the store, once it is done. No packet reports it.
#[derive(Drop)]
pub struct Effect {
    pub answer: Answer,
    /// The reply's bytes, if it has any.
    pub bytes: Option<Bytes>,
    /// How the calls of the Critical Data Store went.
    pub note: Note,
}

impl Model for Effect {
    ghost use Rattle.request_effects.specs.Effects.{Effect as Done, noted_effect};
    ghost use Rattle.store_requests.specs.Called.{bytes_in};

    ghost Value = { Done };

    ghost view = { λ e. noted_effect e.answer (bytes_in e.bytes) e.note };
}

/// Bytes, if there are any, go into a reply without bytes.
#[inline(always)]
fn put_bytes(reply: &mut Reply, bytes: Option<Bytes>)
    requires { reply.old.bytes.list ≡ [] }
    ensures bytes { reply.new.bytes.list ≡ bytes_in bytes }
    ensures same { record reply.new { bytes = reply.old.bytes } ≡ reply.old }
{
    if let Some(bytes) = bytes {
        reply.bytes = bytes;
    }
}

impl Effect {
    /// An answer with this note.
    pub fn noted(answer: Answer, note: Note) -> Effect
        ensures { IsTold result answer.status answer.detail [] note }
    {
        Effect {
            answer,
            bytes: None,
            note,
        }
    }

    /// The answer goes into a reply without bytes, and the bytes too, if there are any. Gives the note.
    pub fn put(self, reply: &mut Reply) -> Note
        requires { reply.old.bytes.list ≡ [] }
        ensures told { told_in reply.new nothing_reported result ≡ self }
        ensures packets { reply.new.packets ≡ reply.old.packets }
    {
        let Effect {
            answer,
            bytes,
            note,
        } = self;
        reply.status = answer.status;
        reply.detail = answer.detail;
        put_bytes(reply, bytes);
        note
    }

    /// An answer that calls nothing.
    pub(crate) fn of(answer: Answer) -> Effect
        ensures { IsTold result answer.status answer.detail [] untouched }
    {
        Effect::noted(answer, Note::untouched())
    }

    /// An answer that calls nothing and names nothing.
    pub(crate) fn plain(status: Status) -> Effect
        ensures { IsTold result status 0 [] untouched }
    {
        Effect::of(Answer::plain(status))
    }
}

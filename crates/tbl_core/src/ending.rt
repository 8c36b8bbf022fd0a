//! The end of a request: its answer, its packets, and what came from outside in it.

ghost use Rattle.std.specs.Prelude.{◌≡◌};
ghost use Rattle.tbl_kinds.specs.Given.{nothing_given};
ghost use Rattle.tbl_kinds.specs.Notes.{untouched};
ghost use Rattle.tbl_core.specs.Answers.{CanEnd, EndsCall, moment_of};

use crate::parts::{Parts, Telemetry};
use reply_packets::tell_call;
use request_effects::{Clock, Report};
use tbl_kinds::{Answer, Entry, Given, Note, Outcome, Reply};
use tbl_outside::{Bank, Validator};

/// Keeps an answer in its reply.
pub(crate) fn put_answer(reply: &mut Reply, answer: Answer)
    ensures { reply.new ≡ record reply.old { status = answer.status; detail = answer.detail } }
{
    reply.status = answer.status;
    reply.detail = answer.detail;
}

/// Keeps an answer that calls nothing of the store in its reply. Gives the note.
#[inline(always)]
pub(crate) fn answered(reply: &mut Reply, answer: Answer) -> Note
    ensures reply { reply.new ≡ record reply.old { status = answer.status; detail = answer.detail } }
    ensures note { result ≡ untouched }
{
    put_answer(reply, answer);
    Note::untouched()
}

/// The answer that a reply has.
#[inline(always)]
pub(crate) fn answer_in(reply: &Reply) -> Answer
    ensures { result ≡ record { status = reply.now.status; detail = reply.now.detail } }
{
    Answer {
        status: reply.status,
        detail: reply.detail,
    }
}

/// Keeps in its entry what came from outside, if anything did.
#[inline(always)]
pub(crate) fn keep_given(given: &mut Given, note: Note, report: &Report)
    requires { given.old ≡ nothing_given }
    ensures { given.new ≡ record { note = note; verdicts = report.now.verdicts } }
{
    match report.verdicts() {
        [None, None] if note.outcome() == Outcome::Untouched && note.touched().is_none() => {}
        verdicts => *given = Given::of(note, verdicts),
    }
}

impl<B: Bank, C: Validator> Parts<B, C> {
    /// Ends a call that was done and is answered in its entry, as it was made at this time: the service boots if a call of the store was
    /// stopped, packets report the call, and the entry keeps what came from outside.
    pub(crate) fn end_call(
        &mut self,
        clock: Clock,
        entry: &mut Entry,
        telemetry: &mut Telemetry,
        mut note: Note,
    )
        requires { CanEnd (moment_of self.old telemetry.old entry.old) note }
        ensures { EndsCall B.Bank C.Validator clock note (moment_of self.old telemetry.old entry.old) (moment_of self.new telemetry.new entry.new) }
    {
        self.boot_if_stopped(&mut note);
        let answer = answer_in(&entry.reply);
        tell_call(
            &mut entry.reply.packets,
            clock,
            &mut telemetry.counters,
            &self.desk.tables,
            &entry.request,
            answer,
            &telemetry.report,
        );
        keep_given(&mut entry.given, note, &telemetry.report);
    }
}

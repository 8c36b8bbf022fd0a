//! The service of a handle: an engine over a bank in memory, whose validation functions answer with what C hands in.

ghost use Rattle.std.specs.Prelude.{◌≡◌, ◌%◌, ◌^◌, ◌∷◌, false, true, IfOk, OnOk, OnErr, length, drop};
ghost use Rattle.tbl_kinds.specs.Places.{bank_size};
ghost use Rattle.tbl_kinds.specs.Requests.{Fits};
ghost use Rattle.tbl_kinds.specs.Transcript.{entry_bytes};
ghost use Rattle.tbl_core.specs.Answers.{IsBegun};
ghost use Rattle.tbl_core.specs.Banks.{HasBank};
ghost use Rattle.tbl_core.specs.Engine.{Steps};
ghost use Rattle.tbl_core.specs.Log.{IsSmall};
ghost use Rattle.tbl_core.specs.Service.{HasRoom};
ghost use Rattle.tbl_c.specs.Serving.{Answered, IsPlayed, IsTold, Opens, Played as IsPlayedBy, Stepped, end_of, functions, got, memory};
ghost use Rattle.tbl_c.specs.Breaks.{breaking, writes_of};
ghost use Rattle.tbl_c.specs.Copies.{IsCopied};
ghost use Rattle.tbl_c.specs.Told.{over_front};

use crate::opening::{renewed, start};
use crate::status::{
    BAD_RECORD, BANK_FAILED, BANK_STOPPED, ENDED, FULL, NO_MEMORY, PLAYED, UNTOLD, VERDICT_MISSING,
};
use crate::told::{Told, Writes, copy_out};
use crate::verdicts::{hand_in, open_question, tell_question};
use handed_kit::Answering;
use session_records::{Next, next_record};
use std::alloc::Global;
use std::marker::Model;
use tbl_core::{Engine, StepFault};
use tbl_fakes::{Break, BreakingBank, Span};
use tbl_kinds::{Actor, Entry, Memory, Request};
use tbl_outside::Bank;
use transcript::spell_entry;

/// How many bytes preserved memory has.
pub(crate) const BANK_SIZE: usize = 262_144;

/// How many places an entry's number in the transcript goes through: the one after FFFFFFFE is 0 again.
const PLACE_COUNT: u64 = 4_294_967_295;

/// How many bytes of room the spelling of an entry has from the beginning. A longer one takes more.
const SPELLING_ROOM: usize = 20_480;

/// An engine over a bank in memory, with the kit of applications in C, and what it needs to give entries to C.
#[derive(Drop)]
pub(crate) struct Service {
    alloc: Global,
    engine: Engine<BreakingBank, Answering>,
    /// Room for the spelling of one entry.
    out: Vec<u8>,
}

impl Model for Service {
    ghost use Rattle.tbl_c.specs.Serving.{Serving};

    ghost Value = { Serving };

    ghost view = { λ s. s.engine };
}

/// Plays the request of an entry. Its status; an Err means that memory ran out, and then nothing was played.
fn play(engine: &mut Engine<BreakingBank, Answering>, entry: &mut Entry) -> Result<u8, Memory>
    requires begun { IsBegun entry.old }
    requires fits { Fits entry.old.actor entry.old.request }
    requires live { engine.old.state.ended ≡ false }
    requires room { HasRoom engine.old entry.old.request }
    ensures steps { IfOk result (λ status. Steps memory functions engine.old engine.new (entry.old.actor, entry.old.request) entry.new (end_of status)) }
    ensures played { IfOk result IsPlayed }
    ensures err { OnErr result (engine.new ≡ engine.old) }
{
    match engine.play(entry) {
        Err(StepFault::Memory) => Err(Memory),
        Err(StepFault::BootFault) => Ok(BANK_FAILED),
        Err(StepFault::BootStopped) => Ok(BANK_STOPPED),
        Ok(()) => Ok(PLAYED),
    }
}

/// Gives C an entry. Returns whether memory suffices for its spelling.
fn tell(room: &mut Vec<u8>, place: u32, entry: &Entry, out: &mut [u8], told: &mut Told) -> bool
    requires small { IsSmall entry.now }
    ensures { result ≡ true → IsTold (entry_bytes place entry.now) told.new out.old out.new }
{
    match spell_entry(room, place, entry) {
        Ok(spelling) => {
            *told = Told {
                length: spelling.len(),
                number: 0,
            };
            copy_out(spelling, 0, out);
            true
        }
        Err(Memory) => false,
    }
}

impl Service {
    /// A service over preserved memory of these bytes. An Err is the status.
    pub(crate) fn open(alloc: Global, bank: &[u8]) -> Result<Service, u8>
        requires { length bank.now ≡ bank_size }
        ensures { Opens bank.now result }
    {
        let Ok(out) = vec![in alloc; 0; SPELLING_ROOM] else {
            return Err(NO_MEMORY);
        };
        Ok(Service {
            alloc,
            engine: start(alloc, bank)?,
            out,
        })
    }

    /// Plays the request of a record, and gives C its entry.
    pub(crate) fn step(
        &mut self,
        input: &[u8],
        verdicts: &[i32],
        out: &mut [u8],
        told: &mut Told,
    ) -> u8
        ensures { Stepped self.old self.new input.now verdicts.now (got result told.new out.old out.new) }
    {
        if !self.engine.is_live() {
            return ENDED;
        }
        let mut request = Request::Exit;
        match next_record(self.alloc, input, &mut request) {
            Err(Memory) => NO_MEMORY,
            Ok(Next::End | Next::Short | Next::Bad) => BAD_RECORD,
            Ok(Next::Item { used, .. }) if used != input.len() => BAD_RECORD,
            Ok(Next::Item { actor, .. }) => self.answer(actor, request, verdicts, out, told),
        }
    }

    /// Plays a request, if its verdicts were handed in; else gives C the question whose verdict is missing.
    fn answer(
        &mut self,
        actor: Actor,
        request: Request,
        verdicts: &[i32],
        out: &mut [u8],
        told: &mut Told,
    ) -> u8
        requires fits { Fits actor request }
        requires live { self.old.state.ended ≡ false }
        ensures { Answered self.old self.new (record { actor = actor; request = request }) verdicts.now (got result told.new out.old out.new) }
    {
        if !self.engine.make_room(&request) {
            return FULL;
        }
        let Ok(questions) = self.engine.asks(actor, &request) else {
            return NO_MEMORY;
        };
        if let Some(question) = open_question(&questions, verdicts.len()) {
            tell_question(question, out, told);
            return VERDICT_MISSING;
        }
        hand_in(&mut self.engine, questions, verdicts);
        match self.play(actor, request, out, told) {
            Ok(status) => status,
            Err(Memory) => NO_MEMORY,
        }
    }

    /// Plays a request whose verdicts were handed in, and gives C its entry. An Err means that memory ran out, and nothing was played.
    fn play(
        &mut self,
        actor: Actor,
        request: Request,
        out: &mut [u8],
        told: &mut Told,
    ) -> Result<u8, Memory>
        requires fits { Fits actor request }
        requires live { self.old.state.ended ≡ false }
        requires room { HasRoom self.old request }
        ensures played { IfOk result (λ status. IsPlayedBy self.old self.new (actor, request) (got status told.new out.old out.new)) }
        ensures err { OnErr result (self.new ≡ self.old) }
        ensures untold { OnErr result (out.new ≡ out.old) }
    {
        let place = (self.engine.played() % PLACE_COUNT) as u32;
        let mut entry = self.engine.begin(actor, request)?;
        let status = play(&mut self.engine, &mut entry)?;
        if tell(&mut self.out, place, &entry, out, told) {
            Ok(status)
        } else {
            Ok(UNTOLD)
        }
    }

    /// Has these writes of preserved memory break off, counted from now on, and no others. An Err means that memory ran out, and nothing
    /// was changed.
    pub(crate) fn break_writes(&mut self, breaks: &[Break]) -> Result<(), Memory>
        ensures ok { OnOk result (HasBank memory (breaking breaks.now self.old.state.store.bank.bytes) self.old self.new) }
        ensures err { OnErr result (self.new ≡ self.old) }
    {
        let bank = renewed(self.alloc, self.engine.bank(), breaks)?;
        let _before = self.engine.replace_bank(bank);
        Ok(())
    }

    /// The same service in memory of its own, whose preserved memory is to break off in no write. An Err means that memory ran out.
    pub(crate) fn duplicate(&self) -> Result<Service, Memory>
        ensures { IfOk result (IsCopied self.now) }
    {
        let bank = renewed(self.alloc, self.engine.bank(), &[])?;
        let kit = self.engine.kit().renewed(self.alloc, Answering::mute)?;
        Ok(Service {
            alloc: self.alloc,
            engine: self.engine.duplicate(self.alloc, bank, kit)?,
            out: vec![in self.alloc; 0; SPELLING_ROOM]?,
        })
    }

    /// What became of the writes of preserved memory.
    pub(crate) fn writes(&self) -> Writes
        ensures { result ≡ writes_of self.now.state.store.bank }
    {
        let bank = self.engine.bank();
        let broken = bank.broken().unwrap_or(Span { at: 0, length: 0 });
        Writes {
            made: bank.write_count(),
            faults: bank.faults(),
            stops: bank.stops(),
            at: broken.at,
            length: broken.length,
        }
    }

    /// Copies preserved memory from a place on.
    pub(crate) fn bank(&self, from: usize, out: &mut [u8])
        ensures { out.new ≡ over_front (drop from self.now.state.store.bank.bytes) out.old }
    {
        copy_out(self.engine.bank().bytes(), from, out);
    }
}

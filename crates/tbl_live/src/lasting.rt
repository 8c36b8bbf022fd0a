//! A core that keeps no history.

ghost use Rattle.std.specs.Prelude.{◌≡◌, ℕ, ◌^◌, ◌↔◌, IsTrue, ◌≤◌, Some, Err, [], ◌∷◌, ◌++◌, IfOk, IfErr};
ghost use Rattle.tbl_kinds.specs.Places.{bank_size};
ghost use Rattle.tbl_core.specs.Service.{AskedBelow, HasRoom};
ghost use Rattle.tbl_live.specs.Bounds.{lasting_bound};
ghost use Rattle.tbl_live.specs.Lasting.{core_in, Starts, HandsBack, MayPlayOn, PlaysOn};

use crate::cores::{ServiceCore, Taken};
use http_server::Log;
use std::alloc::Global;
use std::marker::Model;
use tbl_core::{Engine, StartFault, StepFault};
use tbl_kinds::{Actor, Admit, Entry, Memory, Request};
use tbl_outside::{Back, Bank, Validator};
use tbl_registry::Pin;
use validation::Kit;

/// A core that keeps its last entry and no other, so its memory doesn't grow with what it has played. Only contracts know what it has
/// played.
#[derive(Drop)]
pub struct Lasting<B: Bank, C: Validator> {
    engine: Engine<B, C>,
    last: Option<Entry>,
    /// All entries, which take no memory.
    past: Log<Entry, ()>,
}

impl<B: Bank, C: Validator> Model for Lasting<B, C> {
    ghost use Rattle.tbl_live.specs.Lasting.{LastingView, IsLasting, lasting_view};

    ghost Value = { LastingView B C };

    ghost view = { λ l. lasting_view l.past.items l.engine };

    ghost invariant = { λ l. IsLasting l.last (lasting_view l.past.items l.engine) };
}

impl<B: Bank, C: Validator> Lasting<B, C> {
    /// A core at its start, as `Core::start` gives one: with these validation functions, and for table files from these spacecraft and
    /// processors. It boots as after a reset of the processor; an error gives the bank back if that fails or is stopped, or if memory runs
    /// out.
    pub fn start(
        alloc: Global,
        bank: B,
        kit: Kit<C>,
        admit: Admit,
    ) -> Result<Lasting<B, C>, Back<StartFault, B>>
        requires room { bank_size ≤ B.size bank }
        requires asked { AskedBelow C.asked (2 ^ 62) kit }
        ensures starts { IfOk result (λ it. Starts B.Bank bank kit admit (core_in it)) }
        ensures err { IfErr result (HandsBack B.Bank bank) }
    {
        match Engine::start(alloc, bank, kit, admit) {
            Ok(engine) => Ok(Lasting {
                engine,
                last: None,
                past: Log::new(),
            }),
            Err(back) => Err(back),
        }
    }

    /// The bank as it is, which has room for a further service.
    pub fn end(self) -> B
        ensures bank { result ≡ (core_in self).state.store.bank }
        ensures room { bank_size ≤ B.size result }
    {
        self.engine.end()
    }
}

/// Plays the request of an entry; a Read with what was taken of a lent image, if anything was.
fn play_on<B: Bank, C: Validator>(
    engine: &mut Engine<B, C>,
    entry: &mut Entry,
    taken: Option<Taken<'_>>,
) -> Result<(), StepFault>
    requires { MayPlayOn engine.old entry.old taken }
    ensures { PlaysOn B.Bank C.Validator taken.entry (engine.old, entry.old) (engine.new, entry.new) result }
{
    match taken {
        None => engine.play(entry),
        Some(Taken { pin, slice }) => engine.play_read(entry, pin, slice),
    }
}

/// Whether a step found no memory.
fn ran_out(done: Result<(), StepFault>) -> bool
    ensures { IsTrue result ↔ (done ≡ Err StepFault.Memory) }
{
    matches!(done, Err(StepFault::Memory))
}

/// Keeps an entry as the last one.
fn keep(last: &mut Option<Entry>, past: &mut Log<Entry, ()>, entry: Entry)
    ensures last { last.new ≡ Some entry }
    ensures past { past.new.items ≡ past.old.items ++ (entry, tt) ∷ [] }
{
    *past = past.and(&entry, &());
    *last = Some(entry);
}

impl<B: Bank, C: Validator> ServiceCore<B, C> for Lasting<B, C> {
    ghost core = { core_in };

    ghost bound = { lasting_bound };

    ghost may_play = { λ it request. HasRoom it.engine request };

    fn count(&self) -> u64 {
        self.engine.played()
    }

    fn refusal(&mut self, request: &Request) -> Option<u64> {
        self.engine.limit_met(request)?;
        self.engine.recount();
        self.engine.limit_met(request)
    }

    fn play(
        &mut self,
        actor: Actor,
        request: Request,
        taken: Option<Taken<'_>>,
    ) -> Result<(), StepFault> {
        let Ok(mut entry) = self.engine.begin(actor, request) else {
            return Err(StepFault::Memory);
        };
        let played = play_on(&mut self.engine, &mut entry, taken);
        if ran_out(played) {
            return played;
        }
        keep(&mut self.last, &mut self.past, entry);
        played
    }

    fn last(&self) -> &Entry {
        let Some(entry) = &self.last else {
            unreachable!();
        };
        entry
    }

    fn lend(&self, handle: u16) -> Result<Option<Pin>, Memory> {
        self.engine.lend(handle)
    }
}

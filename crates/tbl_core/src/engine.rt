//! The engine: it plays one request after another, and keeps none of them.

ghost use Rattle.std.specs.Prelude.{◌≡◌, false, ◌^◌, ◌≤◌, ◌↔◌, IsTrue, MatchOption, IfOk};
ghost use Rattle.tbl_kinds.specs.Places.{bank_size};
ghost use Rattle.tbl_core.specs.Engine.{MayStillPin};
ghost use Rattle.tbl_core.specs.Entering.{IsBegunFor, MayBePlayed, HasPlayed, HasPlayedLent, LendsAny};
ghost use Rattle.tbl_core.specs.Pins.{IsSliceOf};
ghost use Rattle.tbl_core.specs.Starting.{StartsEngine};
ghost use Rattle.tbl_core.specs.Service.{AskedBelow, HasRoom, IsLimit, recounted};

use crate::playing::Works;
use crate::service::{StartFault, StepFault};
use std::alloc::Global;
use std::marker::Model;
use tbl_kinds::{Actor, Admit, Bytes, Entry, Given, Memory, Reply, Request, ResetKind, Status};
use tbl_outside::{Back, Bank, Validator};
use tbl_registry::Pin;
use validation::Kit;

/// The length of an event packet.
const EVENT_LENGTH: usize = 24;

/// How many requests an engine plays.
const ENGINE_LIMIT: u64 = (1 << 61) - 1;

/// How many images a table may have had, so that its count doesn't wrap in the request after.
const IMAGE_LIMIT: u32 = 4_294_967_293;

/// The table service without its history: its state, the validation functions of its applications, and the bank in which it keeps blocks.
/// Its memory doesn't grow with what was requested. Only contracts know what was requested and answered: they say what holds for every past
/// that the engine may have played.
#[derive(Drop)]
pub struct Engine<B: Bank, C: Validator> {
    pub(crate) works: Works<B, C>,
}

impl<B: Bank, C: Validator> Model for Engine<B, C> {
    ghost use Rattle.tbl_core.specs.Service.{EngineView};

    ghost Value = { EngineView B C };

    ghost use Rattle.tbl_core.specs.Service.{works_view, IsReady};

    ghost view = { λ e. works_view e.works };

    ghost invariant = { λ e. IsReady C.Validator (works_view e.works) };
}

impl<B: Bank, C: Validator> Engine<B, C> {
    /// The engine at its start, which has played nothing, with these validation functions. Table files may come from these spacecraft and
    /// processors, also after each reset. It boots as after a reset of the processor, since the bank may have blocks of an earlier session;
    /// an error gives the bank back if that fails or is stopped, or if memory runs out.
    #[tactic(auto, unfolding(tbl_model::specs::Counts::counts_of))]
    pub fn start(
        alloc: Global,
        bank: B,
        kit: Kit<C>,
        admit: Admit,
    ) -> Result<Engine<B, C>, Back<StartFault, B>>
        requires room { bank_size ≤ B.size bank }
        requires asked { AskedBelow C.asked (2 ^ 62) kit }
        ensures { StartsEngine B.Bank bank kit admit result }
    {
        let mut works = match Works::make(alloc, bank, kit, admit) {
            Ok(works) => works,
            Err(Back { bank, .. }) => {
                return Err(Back {
                    cause: StartFault::Memory,
                    bank,
                });
            }
        };
        match works.parts.store.boot(ResetKind::Processor) {
            Ok(_found) => Ok(Engine { works }),
            Err(fault) => Err(Back {
                cause: StartFault::from(fault),
                bank: works.parts.store.end(),
            }),
        }
    }

    /// The bank as it is, which has room for a further service.
    pub fn end(self) -> B
        ensures bank { result ≡ self.state.store.bank }
        ensures room { bank_size ≤ B.size result }
    {
        let Engine { works } = self;
        works.parts.store.end()
    }

    /// Whether the engine plays a further request: no boot of it has failed or was stopped.
    pub fn is_live(&self) -> bool
        ensures { IsTrue result ↔ (self.now.state.ended ≡ false) }
    {
        !self.works.parts.ended
    }

    /// How many requests it has played.
    pub fn played(&self) -> u64
        ensures { result ≡ self.now.played }
    {
        self.works.played
    }

    /// The limit that keeps it from playing this request, if one does: 2^61 - 1 requests were played, or a table may have had 4,294,967,293
    /// images since it was registered, by the present count (`recount` counts them again). A reset may come even after so many images,
    /// since it leaves no tables.
    pub fn limit_met(&self, request: &Request) -> Option<u64>
        ensures { MatchOption result (HasRoom self.now request.now) (IsLimit self.now) }
    {
        if self.works.played >= ENGINE_LIMIT {
            return Some(ENGINE_LIMIT);
        }
        if self.works.images < IMAGE_LIMIT {
            return None;
        }
        match request {
            Request::Reset { .. } if self.works.images == IMAGE_LIMIT => None,
            _ => Some(u64::from(IMAGE_LIMIT)),
        }
    }

    /// Counts again how many images the tables have had since they were registered. Nothing else is changed, so the engine represents
    /// whatever it represented before. A table that is registered again begins with none, and a reset leaves no tables.
    pub fn recount(&mut self)
        ensures { self.new ≡ recounted self.old }
    {
        self.works.images = self.works.parts.desk.tables.most_images();
    }

    /// An entry for this request, which isn't answered yet. It has room for one event packet in itself.
    pub fn begin(&self, actor: Actor, request: Request) -> Result<Entry, Memory>
        ensures { IfOk result (IsBegunFor actor request self.now) }
    {
        let alloc = self.works.parts.desk.alloc;
        Ok(Entry {
            actor,
            request,
            reply: Reply {
                status: Status::SUCCESS,
                detail: 0,
                bytes: Bytes::make(alloc, 0)?,
                packets: Bytes::make(alloc, EVENT_LENGTH)?,
            },
            given: Given::nothing(),
        })
    }

    /// Plays the request of an entry, and keeps the outcome in the entry. Whatever the engine represented, and whatever it has played
    /// since, it now represents that with this entry added. If the service boots in it and that boot fails or is stopped, it plays no
    /// further one. If memory runs out, nothing is changed but the entry.
    #[inline(always)]
    pub fn play(&mut self, entry: &mut Entry) -> Result<(), StepFault>
        requires { MayBePlayed self.old entry.old }
        ensures { HasPlayed B.Bank C.Validator self.old self.new (entry.old, entry.new) result }
    {
        self.works.play(entry)
    }

    /// Plays a Read by a handle whose image was lent, like `play`, with the bytes that were taken of it before. If the handle still pins
    /// by the call that the pin was lent for, the reply is this very buffer, and memory can't run out; else the Read is played as by
    /// `play`.
    pub fn play_read(&mut self, entry: &mut Entry, pin: &Pin, slice: Bytes) -> Result<(), StepFault>
        requires may { MayBePlayed self.old entry.old }
        requires pin { MayStillPin pin.now self.old }
        requires slice { IsSliceOf pin.now entry.old.request slice.list }
        ensures { HasPlayedLent B.Bank C.Validator self.old self.new (entry.old, entry.new) (pin.now, slice) result }
    {
        self.works.play_read(entry, pin, slice)
    }

    /// Lends the image that a handle pins, with the place of the call that got its address. None if the handle leads to no table, or pins
    /// no image. An Err means that the image has as many owners as can be counted.
    pub fn lend(&self, handle: u16) -> Result<Option<Pin>, Memory>
        ensures { LendsAny handle self.now result }
    {
        let place = self.works.place_of(handle);
        self.works.parts.desk.tables.lend(handle, place)
    }
}

//! The core, and one step of it.

ghost use Rattle.std.specs.Prelude.{◌≡◌, false, ◌^◌, ◌<◌, ◌≤◌, ◌↔◌, length, IsTrue, All};
ghost use Rattle.tbl_kinds.specs.Places.{bank_size};
ghost use Rattle.tbl_kinds.specs.Records.{record_limit};
ghost use Rattle.tbl_kinds.specs.Requests.{Fits};
ghost use Rattle.tbl_core.specs.Entering.{Advances, AdvancesLent, Lends};
ghost use Rattle.tbl_core.specs.Log.{IsSmall};
ghost use Rattle.tbl_core.specs.Pins.{IsSliceOf};
ghost use Rattle.tbl_core.specs.Starting.{StartsCore};
ghost use Rattle.tbl_core.specs.Service.{AskedBelow, IsOfPin, start_fault};

use crate::engine::Engine;
use crate::log::{push_played, push_read};
use cds_store::BankFault;
use std::alloc::Global;
use std::marker::Model;
use tbl_kinds::{Actor, Admit, Bytes, Entry, Memory, Request};
use tbl_outside::{Back, Bank, Validator};
use tbl_registry::Pin;
use validation::Kit;

/// Why a step played no request, or was the last one.
#[derive(Clone, Copy, Debug, PartialEq, Eq)]
pub enum StepFault {
    /// Memory ran out. Nothing was changed.
    Memory,
    /// The service booted in the request, and the bank failed in that boot. The entry was added, and it is the last one.
    BootFault,
    /// The service booted in the request, and a further reset came into that boot. The entry was added, and it is the last one.
    BootStopped,
}

/// Why there is no service.
#[derive(Clone, Copy, Debug, PartialEq, Eq)]
pub enum StartFault {
    /// Memory ran out.
    Memory,
    /// The bank failed in the boot.
    BootFault,
    /// The processor was reset in the boot.
    BootStopped,
}

impl From<BankFault> for StartFault {
    fn from(fault: BankFault) -> StartFault
        ensures { result ≡ start_fault fault }
    {
        match fault {
            BankFault::Fault { .. } => StartFault::BootFault,
            BankFault::Stopped { .. } => StartFault::BootStopped,
        }
    }
}

/// The table service: its state, the validation functions of its applications, the bank that it keeps blocks in, and the
/// history of all that was requested and answered.
#[derive(Drop)]
pub struct Core<B: Bank, C: Validator> {
    entries: Vec<Entry>,
    engine: Engine<B, C>,
}

impl<B: Bank, C: Validator> Model for Core<B, C> {
    ghost use Rattle.tbl_core.specs.Service.{CoreView};

    ghost Value = { CoreView B C };

    ghost use Rattle.tbl_core.specs.Entering.{IsKept};
    ghost use Rattle.tbl_core.specs.Service.{core_of};

    ghost view = { λ c. core_of c.entries.items c.engine };

    ghost invariant = { λ c. IsKept c.entries.items c.engine };
}

impl<B: Bank, C: Validator> Core<B, C> {
    /// The service at its start, with an empty history and these validation functions. Table files may come from these spacecraft and
    /// processors, also after each reset. It boots as after a reset of the processor, since the bank may have blocks of an earlier session;
    /// an error gives the bank back if that fails or is stopped, or if memory runs out.
    pub fn start(
        alloc: Global,
        bank: B,
        kit: Kit<C>,
        admit: Admit,
    ) -> Result<Core<B, C>, Back<StartFault, B>>
        requires room { bank_size ≤ B.size bank }
        requires asked { AskedBelow C.asked (2 ^ 62) kit }
        ensures { StartsCore B.Bank bank kit admit result }
    {
        match Engine::start(alloc, bank, kit, admit) {
            Ok(engine) => Ok(Core {
                entries: Vec::new(alloc),
                engine,
            }),
            Err(back) => Err(back),
        }
    }

    /// The bank as it is, which has room for a further service.
    pub fn end(self) -> B
        ensures bank { result ≡ self.state.store.bank }
        ensures room { bank_size ≤ B.size result }
    {
        self.engine.end()
    }

    /// All that was requested and answered, in order.
    pub fn history(&self) -> &[Entry]
        ensures entries { result.now ≡ self.now.entries }
        ensures small { All IsSmall result.now }
    {
        self.entries.as_slice()
    }

    /// Whether the service plays a further request: no boot of it has failed or was stopped.
    pub fn is_live(&self) -> bool
        ensures { IsTrue result ↔ (self.now.state.ended ≡ false) }
    {
        self.engine.is_live()
    }

    /// Plays one request, and adds its entry to the history. If the service boots in it and that boot fails or is stopped, it plays no
    /// further one.
    #[inline(always)]
    pub fn step(&mut self, actor: Actor, request: Request) -> Result<(), StepFault>
        requires fits { Fits actor request }
        requires live { self.old.state.ended ≡ false }
        requires room { length self.old.entries < record_limit }
        ensures { Advances B.Bank C.Validator self.old self.new (actor, request) result }
    {
        let Ok(begun) = self.engine.begin(actor, request) else {
            return Err(StepFault::Memory);
        };
        if self.entries.reserve(1).is_err() {
            return Err(StepFault::Memory);
        }
        push_played(&mut self.entries, begun, &mut self.engine)
    }

    /// Plays a Read by a handle whose image was lent, like `step`, with the bytes that were taken of it before. If the handle still
    /// pins by the call that the pin was lent for, the reply is this very buffer; else the Read is played as by `step`.
    pub fn step_read(
        &mut self,
        actor: Actor,
        request: Request,
        pin: &Pin,
        slice: Bytes,
    ) -> Result<(), StepFault>
        requires fits { Fits actor request }
        requires live { self.old.state.ended ≡ false }
        requires room { length self.old.entries < record_limit }
        requires pin { IsOfPin pin.now self.old }
        requires slice { IsSliceOf pin.now request slice.list }
        ensures { AdvancesLent B.Bank C.Validator self.old self.new (actor, request) (pin.now, slice) result }
    {
        let Ok(begun) = self.engine.begin(actor, request) else {
            return Err(StepFault::Memory);
        };
        if self.entries.reserve(1).is_err() {
            return Err(StepFault::Memory);
        }
        push_read(&mut self.entries, begun, &mut self.engine, pin, slice)
    }

    /// Lends the image that a handle pins, with the place of the call that got its address. None if the handle leads to no table, or pins
    /// no image. An Err means that the image has as many owners as can be counted.
    pub fn lend(&self, handle: u16) -> Result<Option<Pin>, Memory>
        ensures { Lends handle self.now result }
    {
        self.engine.lend(handle)
    }
}

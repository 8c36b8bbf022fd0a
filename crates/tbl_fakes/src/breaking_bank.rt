// A bank whose writes break off by their numbers, and which keeps no record.
ghost use Rattle.std.specs.Prelude.{◌≡◌, ◌+◌, ◌<◌, ◌≤◌, ◌^◌, ℕ, List, length, IfOk, ⊤, refl, []};
ghost use Rattle.tbl_fakes.specs.Breaking.{faults_of, stops_of, last_of, unbroken, ReadsWell, BreaksOff};

use crate::past::Span;
use crate::troubles::{Break, Troubles, reach, write_over};
use std::alloc::Global;
use std::marker::Model;
use tbl_kinds::Memory;
use tbl_outside::{Bank, Failed, Written};

/// Preserved memory whose writes break off where their number says so. It keeps no record, so it tells its bytes, and neither its
/// moments nor its calls.
#[derive(Drop)]
pub struct BreakingBank {
    bytes: Vec<u8>,
    troubles: Troubles,
    /// The range of the last write that broke off.
    broken: Option<Span>,
}

impl Model for BreakingBank {
    ghost use Rattle.std.specs.Prelude.{◌<◌, ◌^◌, length};
    ghost use Rattle.tbl_fakes.specs.Breaking.{Breaking};

    ghost Value = { Breaking };

    ghost view = { λ b. record { bytes = b.bytes.items; trouble = b.troubles; broken = b.broken } };

    ghost invariant = { λ b. length b.bytes.items < 2 ^ 32 };
}

/// The range of the last write that broke off: this one, if it breaks off, or the one before.
fn last_broken(planned: Option<Break>, span: Span, before: Option<Span>) -> Option<Span>
    ensures { result ≡ last_of planned span before }
{
    match planned {
        Some(_) => Some(span),
        None => before,
    }
}

impl BreakingBank {
    /// A bank of these bytes, of which these writes break off. They are counted from 1.
    pub fn make(alloc: Global, bytes: Vec<u8>, breaks: &[Break]) -> Result<BreakingBank, Memory>
        requires { length bytes.items < 2 ^ 32 }
        ensures { IfOk result (λ b. b ≡ unbroken bytes.items breaks.now) }
    {
        Ok(BreakingBank {
            bytes,
            troubles: Troubles::make(alloc, breaks, &[])?,
            broken: None,
        })
    }

    /// Its bytes.
    pub fn bytes(&self) -> &[u8]
        ensures { result.now ≡ self.now.bytes }
    {
        self.bytes.as_slice()
    }

    /// How many writes it was asked for.
    pub fn write_count(&self) -> u64
        ensures { result ≡ self.now.trouble.writes }
    {
        self.troubles.writes
    }

    /// How often it failed.
    pub fn faults(&self) -> u64
        ensures { result ≡ self.now.trouble.faults }
    {
        self.troubles.faults
    }

    /// How often it was stopped.
    pub fn stops(&self) -> u64
        ensures { result ≡ self.now.trouble.stops }
    {
        self.troubles.stops
    }

    /// The range of the last write that broke off.
    pub fn broken(&self) -> Option<Span>
        ensures { result ≡ self.now.broken }
    {
        self.broken
    }
}

impl Bank for BreakingBank {
    ghost tells = { ⊤ };

    ghost tells_moments = { ⊥ };

    ghost size = { λ b. length b.bytes };

    ghost now = { λ b. b.bytes };

    ghost may_leave = { λ _ _. ⊥ };

    ghost clock = { λ _. 0 };

    ghost left_since = { λ _ _ _. ⊥ };

    ghost faults = { faults_of };

    ghost stops = { stops_of };

    ghost tells_calls = { λ _. ⊥ };

    ghost calls = { λ _. [] };

    ghost tells_both = { λ untold. absurd untold };

    ghost whole = { λ bank told. refl };

    ghost leaves_now = { λ bank untold. untold };

    ghost leaves_only_now = { λ bank image untold left. absurd untold };

    ghost counts_now = { λ bank t image untold le now. untold };

    ghost only_now = { λ bank image untold left. untold };

    fn size(&self) -> u32
        ensures { result ≡ length self.now.bytes }
    {
        self.bytes.len() as u32
    }

    fn read_at(&mut self, at: u32, into: &mut [u8]) -> Result<(), Failed>
        requires { at + length into.old ≤ length self.old.bytes }
        ensures { ReadsWell at into.old into.new self.old.bytes self.old self.new result }
    {
        let from = at as usize;
        into.copy_from_slice(&self.bytes[from..from + into.len()]);
        Ok(())
    }

    fn write_at(&mut self, at: u32, bytes: &[u8]) -> Written
        requires { at + length bytes.now ≤ length self.old.bytes }
        ensures { BreaksOff at bytes.now self.old self.new result }
    {
        let planned = self.troubles.next_write();
        let length = bytes.len() as u32;
        self.broken = last_broken(planned, Span { at, length }, self.broken);
        let reach = reach(planned, bytes.len());
        write_over(&mut self.bytes, at as usize, &bytes[..reach]);
        self.troubles.end_write(planned)
    }
}

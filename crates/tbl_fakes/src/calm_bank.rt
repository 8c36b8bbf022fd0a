// A bank that never fails.
ghost use Rattle.std.specs.Prelude.{◌≡◌, ◌+◌, ◌<◌, ◌≤◌, ◌^◌, ℕ, List, length, IfOk, replicate, ⊤, refl, []};
ghost use Rattle.tbl_kinds.specs.Numbers.{patched};
ghost use Rattle.tbl_fakes.specs.Breaking.{ReadsWell};

use std::alloc::Global;
use std::marker::Model;
use tbl_kinds::Memory;
use tbl_outside::{Bank, Failed, Written};

/// Preserved memory that never fails and is never stopped. It keeps no record, so it shows its bytes, but neither its moments nor its
/// calls.
#[derive(Drop)]
pub struct CalmBank {
    bytes: Vec<u8>,
}

impl Model for CalmBank {
    ghost use Rattle.std.specs.Prelude.{List, ℕ, ◌<◌, ◌^◌, length};

    ghost Value = { List ℕ };

    ghost view = { λ b. b.bytes.items };

    ghost invariant = { λ b. length b.bytes.items < 2 ^ 32 };
}

impl CalmBank {
    /// A bank of these bytes.
    pub fn make(bytes: Vec<u8>) -> CalmBank
        requires { length bytes.items < 2 ^ 32 }
        ensures { result ≡ bytes.items }
    {
        CalmBank { bytes }
    }

    /// A bank of so many zeros.
    pub fn of_zeros(alloc: Global, size: u32) -> Result<CalmBank, Memory>
        ensures { IfOk result (λ b. b ≡ replicate size 0) }
    {
        Ok(CalmBank {
            bytes: vec![in alloc; 0; size as usize]?,
        })
    }

    /// Its bytes.
    pub fn bytes(&self) -> &[u8]
        ensures { result.now ≡ self.now }
    {
        self.bytes.as_slice()
    }
}

impl Bank for CalmBank {
    ghost tells = { ⊤ };

    ghost tells_moments = { ⊥ };

    ghost size = { length };

    ghost now = { λ b. b };

    ghost may_leave = { λ _ _. ⊥ };

    ghost clock = { λ _. 0 };

    ghost left_since = { λ _ _ _. ⊥ };

    ghost faults = { λ _. 0 };

    ghost stops = { λ _. 0 };

    ghost tells_calls = { λ _. ⊥ };

    ghost calls = { λ _. [] };

    ghost tells_both = { λ untold. absurd untold };

    ghost whole = { λ bank told. refl };

    ghost leaves_now = { λ bank untold. untold };

    ghost leaves_only_now = { λ bank image untold left. absurd untold };

    ghost counts_now = { λ bank t image untold le now. untold };

    ghost only_now = { λ bank image untold left. untold };

    fn size(&self) -> u32
        ensures { result ≡ length self.now }
    {
        self.bytes.len() as u32
    }

    fn read_at(&mut self, at: u32, into: &mut [u8]) -> Result<(), Failed>
        requires { at + length into.old ≤ length self.old }
        ensures { ReadsWell at into.old into.new self.old self.old self.new result }
    {
        let from = at as usize;
        into.copy_from_slice(&self.bytes[from..from + into.len()]);
        Ok(())
    }

    fn write_at(&mut self, at: u32, bytes: &[u8]) -> Written
        requires { at + length bytes.now ≤ length self.old }
        ensures done { result ≡ Written.Done }
        ensures stands { self.new ≡ patched self.old at bytes.now }
    {
        let from = at as usize;
        self.bytes[from..from + bytes.len()].copy_from_slice(bytes);
        Written::Done
    }
}

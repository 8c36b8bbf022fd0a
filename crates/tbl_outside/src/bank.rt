// Preserved memory: what it holds, and what a reset at any moment may leave of it.
ghost use Rattle.std.specs.Prelude.{◌≡◌, ◌+◌, ◌≤◌, ℕ, List, ◌∷◌, length, OnOk, OnErr};
ghost use Rattle.tbl_kinds.specs.Numbers.{piece, patched};
ghost use Rattle.tbl_outside.specs.Bank.{Torn, LeavesOnly};
ghost use Rattle.tbl_outside.specs.BankCalls.{BankCall, read, write};
ghost use Rattle.tbl_outside.specs.Counts.{Still, RoseAlone, Counted};

use crate::stream::Failed;

/// How a write to a bank ended.
#[derive(Clone, Copy, Debug, PartialEq, Eq)]
#[must_use]
pub enum Written {
    /// The bytes stand.
    Done,
    /// The bank failed. The range that was written may hold any bytes.
    Failed,
    /// A reset came. The range that was written may hold any bytes, and the bank serves again.
    Stopped,
}

/// Preserved memory, which outlives a reset, as the memory of the Critical Data Store. Each write may break off inside.
pub trait Bank: Drop {
    /// Whether the bank tells its bytes. Where it doesn't, as a file can't, what is said of them says nothing.
    ghost tells: { Type 0 };

    /// Whether it tells its moments too.
    ghost tells_moments: { Type 0 };

    /// How many bytes it has.
    ghost size: { Self → ℕ };

    /// Its bytes, as a read gives them.
    ghost now: { Self → List ℕ };

    /// What a reset at this moment may leave.
    ghost may_leave: { Self → List ℕ → Type 0 };

    /// The moment, as a number that doesn't fall.
    ghost clock: { Self → ℕ };

    /// What a reset at some moment from that one on may have left, inside a call or between two.
    ghost left_since: { Self → ℕ → List ℕ → Type 0 };

    /// How often a call has failed. It may stand still from 2^64 - 1 on.
    ghost faults: { Self → ℕ };

    /// How often a write was stopped. It may stand still from 2^64 - 1 on.
    ghost stops: { Self → ℕ };

    /// Whether it tells its calls. It may stop to, where it has no room left to keep them, and doesn't begin again.
    ghost tells_calls: { Self → Type 0 };

    /// The calls that it got so far, the newest first. Asking for its size isn't among it.
    ghost calls: { Self → List BankCall };

    /// How many bytes it has.
    fn size(&self) -> u32
        ensures { result ≡ size self.now };

    /// Reads a piece that lies inside the bank. After a failure `into` is left open.
    fn read_at(&mut self, at: u32, into: &mut [u8]) -> Result<(), Failed>
        requires { at + length into.old ≤ size self.old }
        ensures read { OnOk result (tells → into.new ≡ piece at (length into.old) (now self.old)) }
        ensures kept { tells → now self.new ≡ now self.old }
        ensures moments { tells_moments →
            LeavesOnly clock left_since self.old self.new (λ image. image ≡ now self.old) }
        ensures size { size self.new ≡ size self.old }
        ensures done { OnOk result (Still faults stops self.old self.new) }
        ensures failed { OnErr result (RoseAlone faults stops self.old self.new) }
        ensures fault_count { faults self.old ≤ faults self.new }
        ensures stop_count { stops self.old ≤ stops self.new }
        ensures told { tells_calls self.new → tells_calls self.old }
        ensures bank_calls { tells_calls self.new → calls self.new ≡ read at (length into.old) ∷ calls self.old };

    /// Writes over a piece that lies inside the bank.
    fn write_at(&mut self, at: u32, bytes: &[u8]) -> Written
        requires { at + length bytes.now ≤ size self.old }
        ensures done { result ≡ Written.Done → tells → now self.new ≡ patched (now self.old) at bytes.now }
        ensures torn { tells → Torn at (length bytes.now) (now self.old) (now self.new) }
        ensures moments { tells_moments →
            LeavesOnly clock left_since self.old self.new (Torn at (length bytes.now) (now self.old)) }
        ensures size { size self.new ≡ size self.old }
        ensures counted { Counted faults stops self.old self.new result }
        ensures fault_count { faults self.old ≤ faults self.new }
        ensures stop_count { stops self.old ≤ stops self.new }
        ensures told { tells_calls self.new → tells_calls self.old }
        ensures bank_calls { tells_calls self.new → calls self.new ≡ write at bytes.now ∷ calls self.old };

    /// A bank that tells its moments tells its bytes.
    ghost tells_both: { tells_moments → tells };

    /// It tells as many bytes as it has.
    ghost whole: { (bank : Self) → tells → length (now bank) ≡ size bank };

    /// Between two calls a reset may leave what the bank holds ..
    ghost leaves_now: { (bank : Self) → tells_moments → may_leave bank (now bank) };

    /// .. and nothing else.
    ghost leaves_only_now: { (bank : Self) (image : List ℕ) → tells_moments →
        may_leave bank image → image ≡ now bank };

    /// This moment is one of those since an earlier one ..
    ghost counts_now: { (bank : Self) (t : ℕ) (image : List ℕ) → tells_moments →
        t ≤ clock bank → may_leave bank image → left_since bank t image };

    /// .. and since this moment there is no other.
    ghost only_now: { (bank : Self) (image : List ℕ) → tells_moments →
        left_since bank (clock bank) image → may_leave bank image };
}

/// A bank that is handed back, beside the cause.
#[derive(Drop)]
pub struct Back<E, B> {
    pub cause: E,
    pub bank: B,
}

//! The whole directory is cleared.

ghost use Rattle.std.specs.Prelude.{◌≡◌, ◌≤◌, ◌==◌, true, false, [], ◌∷◌, length, replicate, is_ok, OnOk, IfErr, if◌then◌else◌};
ghost use Rattle.tbl_kinds.specs.Numbers.{byte_at};
ghost use Rattle.tbl_kinds.specs.Places.{bank_size};
ghost use Rattle.tbl_outside.specs.Bank.{Torn, LeavesOnly};
ghost use Rattle.tbl_outside.specs.BankCalls.{Asks, write};
ghost use Rattle.cds_layout.specs.Order.{clear_by};
ghost use Rattle.cds_store.specs.Boots.{is_dead, HasMark, AllShut, AreZeros, IsCleared, IsEmptied, Clears};
ghost use Rattle.cds_store.specs.Calls.{Steady, CallCounted, is_old};
ghost use Rattle.cds_store.specs.BankSteps.{ClearsAll, BootStep};

use crate::fault::BankFault;
use crate::writes::write;
use cds_layout::{ENTRIES_PLACE, LIVE_MARK};
use tbl_outside::Bank;

/// The first byte of the live mark.
const LIVE: u8 = LIVE_MARK[0];

/// Where the rest of the mark begins, with the version and twelve zeros.
const MARK_PLACE: u32 = 1;

/// Takes away the first byte of the live mark, if it is there. From then on the bank shows no block.
fn close_live<B: Bank>(bank: &mut B, first: u8) -> Result<(), BankFault>
    requires room { bank_size ≤ B.size bank.old }
    requires read { B.tells → first ≡ byte_at 0 (B.now bank.old) }
    ensures { BootStep B.Bank bank.old bank.new (λ image. is_dead image ≡ true) (Clears (B.now bank.old)) (if first == 0x43 then write 0 (0 ∷ []) ∷ [] else []) result }
{
    if first == LIVE {
        write(bank, 0, &[0], false, false)
    } else {
        Ok(())
    }
}

/// Writes the rest of the live mark, and the version, while the bank isn't live.
fn write_mark<B: Bank>(bank: &mut B) -> Result<(), BankFault>
    requires room { bank_size ≤ B.size bank.old }
    requires dead { B.tells → is_dead (B.now bank.old) ≡ true }
    ensures dead { B.tells → is_dead (B.now bank.new) ≡ true }
    ensures step { BootStep B.Bank bank.old bank.new HasMark IsEmptied (write 1 (0x44 ∷ 0x53 ∷ 0x32 ∷ replicate 12 0) ∷ []) result }
{
    write(
        bank,
        MARK_PLACE,
        b"DS2\0\0\0\0\0\0\0\0\0\0\0\0",
        false,
        false,
    )
}

/// Writes zeros over all entries, while the bank isn't live.
fn write_entries<B: Bank>(bank: &mut B, zeros: &[u8]) -> Result<(), BankFault>
    requires room { bank_size ≤ B.size bank.old }
    requires dead { B.tells → is_dead (B.now bank.old) ≡ true }
    requires mark { B.tells → HasMark (B.now bank.old) }
    requires len { length zeros.now ≡ 8192 }
    requires zeros { AreZeros zeros.now }
    ensures mark { B.tells → HasMark (B.now bank.new) }
    ensures step { BootStep B.Bank bank.old bank.new AllShut IsEmptied (write 16 zeros.now ∷ []) result }
{
    write(bank, ENTRIES_PLACE, zeros, false, false)
}

/// Sets the first byte of the live mark, over closed gates.
fn open_live<B: Bank>(bank: &mut B) -> Result<(), BankFault>
    requires room { bank_size ≤ B.size bank.old }
    requires mark { B.tells → HasMark (B.now bank.old) }
    requires shut { B.tells → AllShut (B.now bank.old) }
    ensures { BootStep B.Bank bank.old bank.new IsCleared IsEmptied (write 0 (0x43 ∷ []) ∷ []) result }
{
    write(bank, 0, &[LIVE], false, false)
}

/// Clears the directory of a bank whose first byte was read: it is live then, and no gate is open. The first byte of the live mark is taken
/// away first and written last, so that no reset finds a part of the directory.
pub(crate) fn clear<B: Bank>(bank: &mut B, first: u8, zeros: &[u8]) -> Result<(), BankFault>
    requires room { bank_size ≤ B.size bank.old }
    requires read { B.tells → first ≡ byte_at 0 (B.now bank.old) }
    requires len { length zeros.now ≡ 8192 }
    requires zeros { AreZeros zeros.now }
    ensures { ClearsAll B.Bank bank.old bank.new (clear_by first zeros.now) result }
{
    close_live(bank, first)?;
    write_mark(bank)?;
    write_entries(bank, zeros)?;
    open_live(bank)
}

//! The first bytes of a bank, and the directory that they tell.

ghost use Rattle.std.specs.Prelude.{◌≡◌, ◌≤◌, [], ◌∷◌, length, OnOk};
ghost use Rattle.tbl_kinds.specs.Places.{bank_size};
ghost use Rattle.tbl_outside.specs.BankCalls.{read};
ghost use Rattle.cds_layout.specs.Directory.{directory_len};
ghost use Rattle.cds_layout.specs.Fronts.{WasRead};
ghost use Rattle.cds_layout.specs.Looks.{OnlyReads, LookAsks, ending};

use crate::directory::{Directory, read_directory};
use tbl_outside::{Bank, Failed};

/// Reads the first bytes of a bank into a buffer of their size, and the directory that they tell.
pub fn read_front<B: Bank>(
    bank: &mut B,
    bytes: &mut [u8],
    directory: &mut Directory,
) -> Result<(), Failed>
    requires len { length bytes.old ≡ directory_len }
    requires room { bank_size ≤ B.size bank.old }
    ensures front { OnOk result (WasRead B.Bank bank.new bytes.new directory.new) }
    ensures reads { OnlyReads B.Bank bank.old bank.new (ending result) }
    ensures bank_calls { LookAsks B.Bank bank.old bank.new (read 0 directory_len ∷ []) (ending result) }
{
    bank.read_at(0, bytes)?;
    read_directory(bytes, directory);
    Ok(())
}

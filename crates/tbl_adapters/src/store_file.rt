//! A bank in a file.

ghost use Rattle.std.specs.Prelude.{◌≡◌, ◌+◌, ◌≤◌, ℕ, List, [], length, IfOk, OnOk, OnErr, refl};
ghost use Rattle.tbl_kinds.specs.Numbers.{piece, patched};
ghost use Rattle.tbl_outside.specs.Bank.{Torn};
ghost use Rattle.tbl_outside.specs.Counts.{Still, RoseAlone, Counted, risen};
ghost use Rattle.tbl_adapters.specs.Files.{padded, lengthened, length-padded};
ghost use Rattle.tbl_adapters.specs.StoreFile.{StoreFileParts};

use crate::fault::OpenFault;
use crate::moving::{lengthen, read_all, write_all};
use crate::random_access::RandomAccess;
use crate::system_file::{Syncing, SystemFile};
use std::fs::{File, Files};
use std::marker::Model;
use tbl_outside::{Bank, Failed, Written};

/// Preserved memory in a file: the bank's bytes are the file's first ones. Each write goes to its place in the file at
/// once and is handed to the system before the call answers, so a process that is killed loses none that was done. A call
/// of the system that fails counts once, isn't tried again, and ends the call of the bank. It is never stopped.
#[derive(Drop)]
pub struct StoreFile<F: RandomAccess = SystemFile> {
    file: F,
    size: u32,
    faults: u64,
}

impl<F: RandomAccess> Model for StoreFile<F> {
    ghost use Rattle.tbl_adapters.specs.StoreFile.{StoreFileParts};

    ghost Value = { StoreFileParts F };

    ghost view = { λ s. record { file = s.file; size = s.size; faults = s.faults } };
}

impl StoreFile<SystemFile> {
    /// Opens the file of this name, and makes it where it isn't there. Where it has fewer bytes than the bank, zeros are written
    /// after its end; bytes after the bank stay as they are. It is locked as long as it is open: where another program has it, the
    /// answer is `InUse`, and nothing was written.
    pub fn open<R: Files<File = File>>(
        rt: &R,
        path: &str,
        size: u32,
        syncing: Syncing,
    ) -> Result<StoreFile<SystemFile>, OpenFault>
        ensures size { IfOk result (λ store. store.size ≡ size) }
        ensures faults { IfOk result (λ store. store.faults ≡ 0) }
    {
        let mut store = StoreFile::over(SystemFile::open(rt, path)?, size)?;
        if syncing == Syncing::EachWrite {
            store.file.sync_from_now()?;
        }
        Ok(store)
    }
}

impl<F: RandomAccess> StoreFile<F> {
    /// A bank of so many bytes in a file that is open, which is made longer with zeros where it is shorter.
    pub fn over(file: F, size: u32) -> Result<StoreFile<F>, OpenFault>
        ensures size { IfOk result (λ store. store.size ≡ size) }
        ensures faults { IfOk result (λ store. store.faults ≡ 0) }
        ensures bytes { F.tells → IfOk result (λ store. F.content store.file ≡ lengthened size (F.content file)) }
    {
        let mut file = file;
        lengthen(&mut file, size)?;
        Ok(StoreFile {
            file,
            size,
            faults: 0,
        })
    }

    /// How many calls failed.
    pub fn faults(&self) -> u64
        ensures { result ≡ self.now.faults }
    {
        self.faults
    }

    /// Counts a failure.
    fn fault(&mut self)
        ensures counted { self.new ≡ record self.old { faults = risen self.old.faults } }
        ensures no_less { self.old.faults ≤ self.new.faults }
    {
        self.faults = self.faults.saturating_add(1);
    }
}

impl<F: RandomAccess> Bank for StoreFile<F> {
    ghost tells = { F.tells };

    ghost tells_moments = { ⊥ };

    ghost size = { λ s. s.size };

    ghost now = { λ s. padded s.size (F.content s.file) };

    ghost may_leave = { λ _ _. ⊥ };

    ghost clock = { λ _. 0 };

    ghost left_since = { λ _ _ _. ⊥ };

    ghost faults = { λ s. s.faults };

    ghost stops = { λ _. 0 };

    ghost tells_calls = { λ _. ⊥ };

    ghost calls = { λ _. [] };

    ghost tells_both = { λ untold. absurd untold };

    ghost whole = { λ bank told. length-padded bank.size (F.content bank.file) };

    ghost leaves_now = { λ bank untold. untold };

    ghost leaves_only_now = { λ bank image untold left. absurd untold };

    ghost counts_now = { λ bank t image untold le now. untold };

    ghost only_now = { λ bank image untold left. untold };

    fn size(&self) -> u32 {
        self.size
    }

    fn read_at(&mut self, at: u32, into: &mut [u8]) -> Result<(), Failed> {
        match read_all(&mut self.file, u64::from(at), into) {
            Ok(()) => Ok(()),
            Err(_) => {
                self.fault();
                Err(Failed)
            }
        }
    }

    fn write_at(&mut self, at: u32, bytes: &[u8]) -> Written {
        match write_all(&mut self.file, u64::from(at), bytes) {
            Ok(()) => Written::Done,
            Err(_) => {
                self.fault();
                Written::Failed
            }
        }
    }
}

//! The file of the system that a store lies in: it is locked while it is open, and may be synced after each write.

use crate::fault::OpenFault;
use crate::random_access::RandomAccess;
use std::fs::{File, Files, OpenOptions, TryLockError};
use std::io;
use std::os::fd::AsRawFd;
use std::os::unix::fs::FileExt;

/// The last descriptor of a standard stream, that of standard error.
const LAST_STREAM: i32 = 2;

/// When what was written is handed from the system to the disk.
#[derive(Clone, Copy, PartialEq, Eq)]
pub enum Syncing {
    /// When the system likes: a program that is killed loses nothing, and a power cut may lose the latest writes.
    Later,
    /// Before the call answers, so that a power cut loses no write that was done, as far as the disk keeps its word (fdatasync, POSIX).
    EachWrite,
}

/// A file of the system. Nobody else has it by this type: it is locked (flock), and the lock goes with the program.
#[derive(Drop)]
pub struct SystemFile {
    file: File,
    syncing: Syncing,
}

/// The file, for reading and writing. It is made where it isn't there.
fn open_file<R: Files<File = File>>(rt: &R, path: &str) -> Result<File, OpenFault> {
    let file = OpenOptions::new()
        .read(true)
        .write(true)
        .create(true)
        .open(rt, path)
        .map_err(OpenFault::Open)?;
    // Where a standard stream is closed its descriptor is free, and what is meant for the stream must not go into the file.
    if file.as_raw_fd() <= LAST_STREAM {
        return file.try_clone().map_err(OpenFault::Open);
    }
    Ok(file)
}

/// Locks the file for this program. It doesn't wait for another one.
fn lock(file: &File) -> Result<(), OpenFault> {
    match file.try_lock() {
        Ok(()) => Ok(()),
        Err(TryLockError::WouldBlock) => Err(OpenFault::InUse),
        Err(TryLockError::Error(error)) => Err(OpenFault::Lock(error)),
    }
}

impl SystemFile {
    /// Opens the file of this name and locks it, and makes it where it isn't there. Its writes aren't synced.
    pub(crate) fn open<R: Files<File = File>>(rt: &R, path: &str) -> Result<SystemFile, OpenFault> {
        let file = open_file(rt, path)?;
        lock(&file)?;
        Ok(SystemFile {
            file,
            syncing: Syncing::Later,
        })
    }

    /// Syncs what was written so far, and each write from now on.
    pub(crate) fn sync_from_now(&mut self) -> Result<(), OpenFault> {
        self.file.sync_all().map_err(OpenFault::Sync)?;
        self.syncing = Syncing::EachWrite;
        Ok(())
    }
}

impl RandomAccess for SystemFile {
    ghost use Rattle.std.specs.Prelude.{[]};

    ghost tells = { ⊥ };

    ghost content = { λ _. [] };

    fn len(&mut self) -> io::Result<u64> {
        Ok(self.file.metadata()?.len())
    }

    fn read_some(&mut self, at: u64, into: &mut [u8]) -> io::Result<usize> {
        self.file.read_at(into, at)
    }

    fn write_some(&mut self, at: u64, bytes: &[u8]) -> io::Result<usize> {
        let count = self.file.write_at(bytes, at)?;
        if self.syncing == Syncing::EachWrite {
            self.file.sync_data()?;
        }
        Ok(count)
    }
}

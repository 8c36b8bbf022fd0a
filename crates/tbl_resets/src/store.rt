// What preserved memory begins with: the bytes of a store file, or none.
use crate::play::BANK_SIZE;
use std::alloc::{AllocError, Global};
use std::fs::{self, File, Files, TryLockError};
use std::io;
use std::os::unix::fs::FileExt;
use thiserror::Error;

/// Why a store file can't be copied. The text goes on after the name of the file.
#[derive(Clone, Copy, Debug, Error)]
pub(crate) enum CopyFault {
    /// It isn't there, or can't be opened for reading.
    #[error("can't be opened for reading: {0}")]
    Open(io::Error),
    /// It is a folder, a pipe or a device.
    #[error("is no regular file")]
    Irregular,
    /// Another program has it: it is locked.
    #[error("is in use by another program")]
    InUse,
    /// The system can't lock it.
    #[error("can't be locked: {0}")]
    Lock(io::Error),
    /// A read of it failed.
    #[error("can't be read: {0}")]
    Read(io::Error),
    /// Memory ran out.
    #[error("doesn't fit into memory")]
    Memory,
}

impl From<AllocError> for CopyFault {
    fn from(_error: AllocError) -> CopyFault {
        CopyFault::Memory
    }
}

/// Locks a file that is read, so that no program writes to it meanwhile. It doesn't wait for one that has it.
fn lock(file: &File) -> Result<(), CopyFault> {
    match file.try_lock_shared() {
        Ok(()) => Ok(()),
        Err(TryLockError::WouldBlock) => Err(CopyFault::InUse),
        Err(TryLockError::Error(error)) => Err(CopyFault::Lock(error)),
    }
}

/// Opens a regular file for reading, and locks it. (To open a pipe would wait for one that writes.)
fn open<R: Files<File = File>>(rt: &R, name: &str) -> Result<File, CopyFault> {
    if !fs::metadata(rt, name).map_err(CopyFault::Open)?.is_file() {
        return Err(CopyFault::Irregular);
    }
    let file = File::open(rt, name).map_err(CopyFault::Open)?;
    lock(&file)?;
    Ok(file)
}

/// Reads the front of a file into these bytes, up to the end of the file.
fn read_front(file: &File, bytes: &mut [u8]) -> Result<(), CopyFault> {
    let there = file.metadata().map_err(CopyFault::Read)?.len();
    let size = there.min(bytes.len() as u64) as usize;
    file.read_exact_at(&mut bytes[..size], 0)
        .map_err(CopyFault::Read)
}

/// The bytes of a bank before anything was written in it.
pub(crate) fn empty_store(alloc: Global) -> Result<Vec<u8>, AllocError> {
    vec![in alloc; 0; BANK_SIZE]
}

/// The bytes of a bank in a store file, with zeros after the end of a shorter one, as the service sees them. The file is only
/// read, and it is closed then.
pub(crate) fn copy_of_store<R: Files<File = File>>(
    rt: &R,
    alloc: Global,
    name: &str,
) -> Result<Vec<u8>, CopyFault> {
    let mut bytes = empty_store(alloc)?;
    let file = open(rt, name)?;
    read_front(&file, bytes.as_mut_slice())?;
    Ok(bytes)
}

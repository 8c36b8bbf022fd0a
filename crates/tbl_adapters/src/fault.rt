use std::io;
use thiserror::Error;

/// Why there is no store file, with what the system said. The text goes on after the name of the file.
#[derive(Clone, Copy, Debug, Error)]
pub enum OpenFault {
    /// It can't be opened for reading and writing, or it isn't there and can't be made.
    #[error("can't be opened for reading and writing: {0}")]
    Open(io::Error),
    /// Another program has it: it is locked.
    #[error("is in use by another program")]
    InUse,
    /// The system can't lock it.
    #[error("can't be locked: {0}")]
    Lock(io::Error),
    /// The system doesn't say how long it is.
    #[error("has a length that can't be read: {0}")]
    Length(io::Error),
    /// It is too short, and zeros can't be written after its end.
    #[error("is too short and can't be made longer: {0}")]
    Lengthen(io::Error),
    /// It was to be synced, and it or its folder can't be.
    #[error("can't be synced: {0}")]
    Sync(io::Error),
}

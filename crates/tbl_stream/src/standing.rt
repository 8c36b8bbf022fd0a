/// The standing of a stream after a piece of its input.
#[derive(Clone, Copy, PartialEq, Eq)]
pub enum Standing {
    /// All whole records were played. What is left is the beginning of a further one, or nothing.
    Open,
    /// What follows is no record, whatever comes.
    Bad,
    /// As many records were played as may be, and bytes are left.
    TooMany,
    /// The engine has no room for the request that follows.
    Full,
    /// The last request booted the service, and the bank failed in that boot.
    BootFault,
    /// The last request booted the service, and a reset came into that boot.
    BootStopped,
    /// The sink failed.
    SinkFailed,
    /// Memory ran out. All entries are written.
    Memory,
    /// Memory ran out for the spelling of the last entry.
    Unwritten,
}

//! What a call by C is answered.

/// What was asked was done.
pub(crate) const PLAYED: u8 = 0;

/// Memory ran out. Nothing was played.
pub(crate) const NO_MEMORY: u8 = 1;

/// The bytes aren't one whole record. Nothing was played.
pub(crate) const BAD_RECORD: u8 = 5;

/// The bank failed in a boot, which was the last.
pub(crate) const BANK_FAILED: u8 = 7;

/// A reset came into a boot, which was the last.
pub(crate) const BANK_STOPPED: u8 = 8;

/// The engine has no room for a further request. Nothing was played.
pub(crate) const FULL: u8 = 13;

/// A validation function has to judge an image first. Nothing was played.
pub(crate) const VERDICT_MISSING: u8 = 16;

/// Preserved memory has another size.
pub(crate) const BAD_BANK: u8 = 17;

/// The handle is closed.
pub(crate) const CLOSED: u8 = 18;

/// A boot failed or was stopped before, and the service plays nothing any more.
pub(crate) const ENDED: u8 = 19;

/// The record was played, and memory ran out for its entry.
pub(crate) const UNTOLD: u8 = 20;

//! The time at which requests are made.

/// The service's time.
#[derive(Clone, Copy)]
pub struct Clock {
    pub seconds: u32,
    /// Subseconds, in units of 1/65,536 of a second.
    pub sub: u16,
}

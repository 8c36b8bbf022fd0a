// What threads tell as they play.
/// What is told of the threads as they play, so that a test can see them run beside each other. Nothing is promised of
/// it. Actor 0 is the ground, and 1 to 16 are the applications; an actor's records are counted from 0.
pub trait Gate {
    /// An actor's thread is about to take the turn for this record.
    fn before(&self, actor: u8, nth: u32);

    /// It has played this record, and given the turn back.
    fn after(&self, actor: u8, nth: u32);

    /// It takes the bytes of a pinned image, outside the turn.
    fn reading(&self, actor: u8);
}

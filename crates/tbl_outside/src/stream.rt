// The session's two ends: where its bytes come from, and where its transcript goes.
ghost use Rattle.std.specs.Prelude.{◌≡◌, ◌<◌, ◌≤◌, ℕ, Option, List, length, take, IfOk, OnOk, OnErr};
ghost use Rattle.std.specs.Io.KnownBytes.{prepend_known, append_known, IsAtEnd};
ghost use Rattle.tbl_outside.specs.Counts.{Rose};
ghost use Rattle.tbl_outside.specs.Streams.{TakesFront, after_read};
ghost use Rattle.tbl_outside.specs.declared.stream.HowFar.{HowFar};

/// The outside failed. The count of faults of the object that answers this says so too.
#[derive(Clone, Copy, Debug, PartialEq, Eq)]
pub struct Failed;

/// How far a source was read.
#[derive(Clone, Copy, Debug, PartialEq, Eq)]
pub enum HowFar {
    /// Each read gave a byte.
    Going,
    /// The last read gave none: the input was at its end, or the read failed.
    Ended,
    /// It was read again after that.
    Overrun,
}

/// Where bytes come from, in order, as a command uplink or standard input.
pub trait Source {
    /// The bytes that are still to come, where the source tells them.
    ghost left: { Self → Option (List ℕ) };

    /// How often a read has failed. It stands still at 2^64 - 1.
    ghost faults: { Self → ℕ };

    /// How far it was read. A source that doesn't tell is at `Overrun` from the first.
    ghost how_far: { Self → HowFar };

    /// Moves bytes from the front of what is left into the front of a piece, and answers how many. What stands in the
    /// piece after them, and in the whole piece after a failure, is left open.
    fn read(&mut self, into: &mut [u8]) -> Result<usize, Failed>
        ensures fits { IfOk result (λ n. n ≤ length into.old) }
        ensures moved { IfOk result (λ n. left self.old ≡ prepend_known (take n into.new) (left self.new)) }
        ensures end { IfOk result (λ n. n ≡ 0 → 0 < length into.old → IsAtEnd (left self.new)) }

        ensures still { OnOk result (faults self.new ≡ faults self.old) }
        ensures kept { OnErr result (left self.new ≡ left self.old) }
        ensures cause { OnErr result (Rose (faults self.old) (faults self.new)) }
        ensures count { faults self.old ≤ faults self.new }
        ensures far_ok { IfOk result (λ n. how_far self.new ≡ after_read n (how_far self.old)) }
        ensures far_err { OnErr result (how_far self.new ≡ after_read 0 (how_far self.old)) };
}

/// Where bytes go, in order, as a telemetry downlink or standard output.
pub trait Sink {
    /// The bytes that were taken, where the sink tells them.
    ghost taken: { Self → Option (List ℕ) };

    /// How often a write has failed. It stands still at 2^64 - 1.
    ghost faults: { Self → ℕ };

    /// Takes a whole piece, or fails after some front of it.
    fn write(&mut self, bytes: &[u8]) -> Result<(), Failed>
        ensures whole { OnOk result (taken self.new ≡ append_known (taken self.old) bytes.now) }
        ensures still { OnOk result (faults self.new ≡ faults self.old) }

        ensures front { OnErr result (TakesFront (taken self.old) (taken self.new) bytes.now) }
        ensures cause { OnErr result (Rose (faults self.old) (faults self.new)) }
        ensures count { faults self.old ≤ faults self.new };
}

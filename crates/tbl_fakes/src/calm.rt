// A source and a sink that never fail.
ghost use Rattle.std.specs.Prelude.{◌≡◌, ◌<◌, ◌≤◌, ◌++◌, [], length, take, drop, min, Some, None, Ok, Result, ℕ, Option, List};
ghost use Rattle.std.specs.Io.KnownBytes.{prepend_known, IsAtEnd};
ghost use Rattle.tbl_outside.specs.declared.stream.HowFar.TheVariants.{Overrun};

use crate::supply::Supply;
use std::marker::Model;
use tbl_kinds::Bytes;
use tbl_outside::{Failed, Sink, Source};

/// A source of given bytes that never fails.
#[derive(Drop)]
pub struct CalmSource {
    supply: Supply,
}

impl Model for CalmSource {
    ghost use Rattle.std.specs.Prelude.{List, ℕ};

    ghost Value = { List ℕ };

    ghost view = { λ s. s.supply };
}

impl CalmSource {
    /// A source of these bytes.
    pub fn make(bytes: Bytes) -> CalmSource
        ensures { result ≡ bytes.list }
    {
        CalmSource {
            supply: Supply::of(bytes),
        }
    }

    /// The bytes that are still to come.
    pub fn left_bytes(&self) -> &[u8]
        ensures { result.now ≡ self.now }
    {
        self.supply.rest()
    }
}

impl Source for CalmSource {
    ghost left = { λ s. Some s };

    ghost faults = { λ _. 0 };

    ghost how_far = { λ _. Overrun };

    fn read(&mut self, into: &mut [u8]) -> Result<usize, Failed>
        ensures most { result ≡ Ok (min (length into.old) (length self.old)) }
        ensures front { into.new ≡ take (min (length into.old) (length self.old)) self.old ++ drop (length self.old) into.old }
        ensures left { self.new ≡ drop (length into.old) self.old }
    {
        Ok(self.supply.fill_up_to(into, into.len()))
    }
}

/// A sink that takes every piece, keeps nothing and shows nothing.
#[derive(Drop)]
pub struct CalmSink;

impl CalmSink {
    /// A sink that takes all bytes and keeps none.
    pub fn make() -> CalmSink {
        CalmSink
    }
}

impl Sink for CalmSink {
    ghost taken = { λ _. None };

    ghost faults = { λ _. 0 };

    fn write(&mut self, _bytes: &[u8]) -> Result<(), Failed> {
        Ok(())
    }
}

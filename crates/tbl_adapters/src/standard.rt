//! Standard input and standard output as a session's two ends. What passes through them no contract tells.

ghost use Rattle.std.specs.Prelude.{◌≡◌, None};
ghost use Rattle.tbl_outside.specs.declared.stream.HowFar.TheVariants.{Overrun};

use std::io::{Read, Write};
use std::marker::Model;
use std::rt::{Stdin, Stdout};
use tbl_outside::{Failed, Sink, Source};

/// Standard input, and how many reads of it failed: a contract sees the count. A read that failed isn't tried again.
#[derive(Drop)]
pub struct StandardInput {
    stdin: Stdin,
    faults: u64,
}

impl Model for StandardInput {
    ghost use Rattle.std.specs.Prelude.{ℕ};

    ghost Value = { ℕ };

    ghost view = { λ s. s.faults };
}

impl StandardInput {
    /// Standard input, of which no read has failed.
    pub fn of(stdin: Stdin) -> StandardInput
        ensures { result ≡ 0 }
    {
        StandardInput { stdin, faults: 0 }
    }

    /// How many reads failed.
    pub fn faults(&self) -> u64
        ensures { result ≡ self.now }
    {
        self.faults
    }
}

impl Source for StandardInput {
    ghost left = { λ _. None };

    ghost faults = { λ s. s };

    ghost how_far = { λ _. Overrun };

    fn read(&mut self, into: &mut [u8]) -> Result<usize, Failed> {
        match self.stdin.read(into) {
            Ok(count) => Ok(count),
            Err(_) => {
                self.faults = self.faults.saturating_add(1);
                Err(Failed)
            }
        }
    }
}

/// Standard output, and how many writes to it failed: a contract sees the count. A write that failed may have written a
/// front of its bytes.
#[derive(Drop)]
pub struct StandardOutput {
    stdout: Stdout,
    faults: u64,
}

impl Model for StandardOutput {
    ghost use Rattle.std.specs.Prelude.{ℕ};

    ghost Value = { ℕ };

    ghost view = { λ s. s.faults };
}

impl StandardOutput {
    /// Standard output, to which no write has failed.
    pub fn of(stdout: Stdout) -> StandardOutput
        ensures { result ≡ 0 }
    {
        StandardOutput { stdout, faults: 0 }
    }

    /// How many writes failed.
    pub fn faults(&self) -> u64
        ensures { result ≡ self.now }
    {
        self.faults
    }
}

impl Sink for StandardOutput {
    ghost taken = { λ _. None };

    ghost faults = { λ s. s };

    fn write(&mut self, bytes: &[u8]) -> Result<(), Failed> {
        match self.stdout.write_all(bytes) {
            Ok(()) => Ok(()),
            Err(_) => {
                self.faults = self.faults.saturating_add(1);
                Err(Failed)
            }
        }
    }
}

//! Reads all records of an input, by their actors, before any of them is played.

ghost use Rattle.std.specs.Prelude.{◌≡◌, ◌==◌, ◌≤◌, ◌+◌, List, Some, ℕ, [], ◌++◌, length, IfOk, MatchOption};
ghost use Rattle.tbl_kinds.specs.Records.{Pair};
ghost use Rattle.tbl_session.specs.Inputs.{piece_limit};
ghost use Rattle.tbl_stream.specs.Reading.{ReadsFrom};
ghost use Rattle.tbl_stream.specs.Standing.{IsOfInput};
ghost use Rattle.tbl_stream.specs.declared.standing.Standing.TheVariants.{Open};
ghost use Rattle.tbl_top.specs.Collecting.{Collects, CollectsPiece, HasTaken, TakesNone, TakesOne, failed_of};

use session_records::drop_front;
use std::alloc::Global;
use std::marker::Model;
use tbl_crew::Scripts;
use tbl_kinds::{Memory, Request};
use tbl_outside::{Failed, Source};
use tbl_stream::{PIECE_LENGTH, Standing, next_item};

/// The most records of a session.
pub(crate) const RECORD_LIMIT: u32 = 32_768;

/// More reads than a session can need: each takes a byte, and a session has at most 32,768 records of at most 32,836
/// bytes, and the beginning of one more.
const MOST_READS: u32 = 1_076_100_000;

/// The records that were read, and the beginning of a further one.
#[derive(Drop)]
pub(crate) struct Collector {
    alloc: Global,
    scripts: Scripts,
    /// How many records may follow.
    left: u32,
    /// The beginning of a record that isn't whole yet.
    kept: Vec<u8>,
}

impl Model for Collector {
    ghost use Rattle.tbl_top.specs.Collecting.{Collecting};

    ghost Value = { Collecting };

    ghost view = { λ c. record { scripts = c.scripts; left = c.left; rest = c.kept.items } };
}

impl Collector {
    /// Before the first byte. An Err means out of memory.
    pub(crate) fn make(alloc: Global) -> Result<Collector, Memory>
        ensures { IfOk result (HasTaken Open [] 0 []) }
    {
        Ok(Collector {
            alloc,
            scripts: Scripts::make(alloc)?,
            left: RECORD_LIMIT,
            kept: Vec::new(alloc),
        })
    }

    /// Takes the record at a place, if one is whole; else answers what is in its way.
    fn take_next(&mut self, at: &mut usize) -> Option<Standing>
        requires within { at.old ≤ length self.old.rest }
        ensures within { at.new ≤ length self.new.rest }
        ensures rest { self.new.rest ≡ self.old.rest }
        ensures takes { MatchOption result (TakesOne at.old at.new self.old self.new) (λ standing. TakesNone standing at.old at.new self.old self.new) }
    {
        let mut request = Request::Exit;
        let rest = &self.kept.as_slice()[*at..];
        match next_item(self.alloc, Some(self.left), rest, &mut request) {
            Err(standing) => Some(standing),
            Ok((actor, used)) => match self.scripts.push(actor, request) {
                Err(Memory) => Some(Standing::Memory),
                Ok(()) => {
                    *at += used;
                    self.left -= 1;
                    None
                }
            },
        }
    }

    /// Takes the records that are whole with this piece of the input, and answers what comes after them.
    fn feed(&mut self, piece: &[u8]) -> Standing
        // Of whatever was fed before, more records are taken, and what is after them is what the answer says.
        ensures takes { (fed : List ℕ) (most : ℕ) (pairs : List Pair) → HasTaken Open fed most pairs self.old
            → (more : List Pair) × HasTaken result (fed ++ piece.now) (length self.old.rest + length piece.now) more self.new }
        ensures input { IsOfInput result }
    {
        if self.kept.extend_from_slice(piece).is_err() {
            return Standing::Memory;
        }
        let mut at = 0;
        'records: loop {
            if let Some(standing) = self.take_next(&mut at) {
                drop_front(&mut self.kept, at);
                return standing;
            }
        }
    }

    /// Reads one piece of the input; None if more may come, and else the standing of the input and whether the read failed.
    fn read_piece<S: Source>(
        &mut self,
        piece: &mut [u8],
        source: &mut S,
    ) -> Option<(Standing, bool)>
        requires room { length piece.old ≡ piece_limit }
        ensures room { length piece.new ≡ piece_limit }
        ensures reads { CollectsPiece result self.old self.new (S.left source.old) (S.left source.new) }
        ensures source { ReadsFrom S.Source (failed_of result) source.old source.new }
    {
        match source.read(piece) {
            Err(Failed) => Some((Standing::Open, true)),
            Ok(0) => Some((Standing::Open, false)),
            Ok(count) => match self.feed(&piece[..count]) {
                Standing::Open => None,
                stop => Some((stop, false)),
            },
        }
    }

    /// Reads an input to its end, or to what is no record, and answers its standing then and whether a read failed.
    pub(crate) fn read_all<S: Source>(&mut self, source: &mut S) -> (Standing, bool)
        requires fresh { HasTaken Open [] 0 [] self.old }
        ensures reads { Collects result self.new (S.left source.old) (S.left source.new) }
        ensures source { ReadsFrom S.Source (Some result.1) source.old source.new }
    {
        let mut piece = [0u8; PIECE_LENGTH];
        'reads: for _ in 0..MOST_READS {
            if let Some(ended) = self.read_piece(&mut piece, source) {
                return ended;
            }
        }
        unreachable!()
    }

    /// Whether no byte is kept.
    pub(crate) fn is_whole(&self) -> bool
        ensures { result ≡ (length self.now.rest == 0) }
    {
        self.kept.is_empty()
    }

    /// What each actor asks.
    pub(crate) fn scripts(self) -> Scripts
        ensures { result ≡ self.scripts }
    {
        self.scripts
    }
}

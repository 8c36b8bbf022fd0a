//! The session of a drill, as a list that is taken from the front.

ghost use Rattle.std.specs.Prelude.{◌≡◌, ◌+◌, ◌^◌, ◌<◌, [], ◌∷◌, ◌++◌, length, map, IfOk, OnOk, OnErr, MatchOption};
ghost use Rattle.std.specs.List.{AllByRecursion};
ghost use Rattle.tbl_kinds.specs.Records.{IsRecord};
ghost use Rattle.tbl_drill.specs.Drill.{opening, roomless, session};

use crate::generator::Generator;
use crate::opening::{OPENING_LEN, opening_record};
use crate::record::Record;
use crate::rounds::round_record;
use std::alloc::Global;
use std::collections::VecDeque;
use std::marker::Model;
use tbl_kinds::{Actor, Memory, Request};

/// The records of a session that weren't taken yet, in order. Contracts see them as a list of pairs of actor and request.
#[derive(Drop)]
pub struct Scripted {
    records: VecDeque<Record>,
}

impl Model for Scripted {
    ghost use Rattle.std.specs.Prelude.{List};
    ghost use Rattle.tbl_kinds.specs.Records.{Pair};

    ghost Value = { List Pair };

    ghost view = { λ s. s.records.items };
}

impl Scripted {
    /// No record, with room for this many.
    fn with_room(alloc: Global, room: usize) -> Result<Scripted, Memory>
        ensures { IfOk result (λ s. s ≡ []) }
    {
        Ok(Scripted {
            records: VecDeque::with_capacity(alloc, room)?,
        })
    }

    /// Puts a record last.
    fn push(&mut self, requested: Record) -> Result<(), Memory>
        ensures ok { OnOk result (self.new ≡ self.old ++ requested ∷ []) }
        ensures err { OnErr result (self.new ≡ self.old) }
    {
        self.records.push_back(requested)?;
        Ok(())
    }

    /// Takes the first record away. It takes no memory.
    pub fn next(&mut self) -> Option<(Actor, Request)>
        ensures { MatchOption result ((self.old ≡ []) × (self.new ≡ [])) (λ p. self.old ≡ record { actor = p.0; request = p.1 } ∷ self.new) }
    {
        let Record { actor, request } = self.records.pop_front()?;
        Some((actor, request))
    }
}

/// The records that a drill begins with, with room for those of the rounds.
fn opened(alloc: Global, rounds: usize) -> Result<Scripted, Memory>
    requires { rounds < 2 ^ 32 }
    ensures { IfOk result (λ s. s ≡ opening) }
{
    let mut script = Scripted::with_room(alloc, usize::from(OPENING_LEN) + rounds)?;
    for place in 0..OPENING_LEN {
        script.push(opening_record(place))?;
    }
    Ok(script)
}

/// The session of a drill: nine records that reset the processor and start two applications with three tables, and then one
/// a round. A round asks one of eight things about one of the tables, with a byte; a generator that begins with the seed
/// draws all three. An Err is out of memory.
pub fn drill_session(alloc: Global, seed: u64, rounds: u32) -> Result<Scripted, Memory>
    ensures session { IfOk result (λ s. map roomless s ≡ session seed rounds) }
    ensures len { IfOk result (λ s. length s ≡ 9 + rounds) }
    ensures records { IfOk result (λ s. AllByRecursion IsRecord s) }
{
    let mut script = opened(alloc, rounds as usize)?;
    let mut generator = Generator::new(seed);
    for round in 0..rounds {
        script.push(round_record(alloc, &mut generator)?)?;
    }
    Ok(script)
}

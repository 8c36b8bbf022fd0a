//! What each actor asks, in order.

ghost use Rattle.std.specs.Prelude.{◌≡◌, ℕ, ◌≤◌, ◌<◌, [], ◌∷◌, ◌++◌, length, replicate, min, slice_index, IfOk, OnOk, OnErr, MatchBool, MatchOption};
ghost use Rattle.tbl_kinds.specs.Records.{actor_number, record_limit};
ghost use Rattle.tbl_session.specs.Actors.{actor_count};
ghost use Rattle.std.specs.Option.{option_copied};
ghost use Rattle.tbl_crew.specs.Leading.{LacksOne};
ghost use Rattle.tbl_crew.specs.Scripts.{script_of, first_of, pushed, with_script};

use std::alloc::Global;
use std::collections::VecDeque;
use std::marker::Model;
use tbl_kinds::{Actor, Memory, Request};

/// How many actors there are: the ground and 16 applications.
pub(crate) const ACTOR_COUNT: usize = 17;

/// The most records of a session.
const RECORD_LIMIT: usize = 32_768;

/// The requests of one actor that weren't played yet. Contracts see them as a list.
#[derive(Drop)]
struct Script {
    requests: VecDeque<Request>,
}

impl Model for Script {
    ghost use Rattle.std.specs.Prelude.{List};
    ghost use Rattle.tbl_kinds.specs.declared.request.Request.{Request};

    ghost Value = { List Request };

    ghost view = { λ s. s.requests.items };
}

impl Script {
    /// No request.
    fn make(alloc: Global) -> Script
        ensures { result ≡ [] }
    {
        Script {
            requests: VecDeque::new(alloc),
        }
    }

    /// How many requests there are, of those that can be played.
    fn len(&self) -> u32
        ensures { result ≡ min (length self.now) record_limit }
    {
        self.requests.len().min(RECORD_LIMIT) as u32
    }

    /// Puts a request last.
    fn push(&mut self, request: Request) -> Result<(), Memory>
        ensures ok { OnOk result (self.new ≡ self.old ++ request ∷ []) }
        ensures err { OnErr result (self.new ≡ self.old) }
    {
        self.requests.push_back(request)?;
        Ok(())
    }

    /// The first request.
    fn first(&self) -> Option<&Request>
        ensures { option_copied result ≡ first_of self.now }
    {
        self.requests.front()
    }

    /// Takes the first request away.
    fn next(&mut self) -> Option<Request>
        ensures { MatchOption result ((self.old ≡ []) × (self.new ≡ [])) (λ request. self.old ≡ request ∷ self.new) }
    {
        self.requests.pop_front()
    }
}

/// The requests of each actor, in order: of the ground, and of the applications from 1 to 16. Contracts see them as 17
/// lists of requests.
#[derive(Drop)]
pub struct Scripts {
    scripts: Vec<Script>,
}

impl Model for Scripts {
    ghost use Rattle.std.specs.Prelude.{◌≡◌, List, length};
    ghost use Rattle.tbl_kinds.specs.declared.request.Request.{Request};
    ghost use Rattle.tbl_session.specs.Actors.{actor_count};

    ghost Value = { List (List Request) };

    ghost view = { λ s. s.scripts.items };

    ghost invariant = { λ s. length s.scripts.items ≡ actor_count };
}

impl Scripts {
    /// Scripts without a request. An Err means out of memory.
    pub fn make(alloc: Global) -> Result<Scripts, Memory>
        ensures { IfOk result (λ scripts. scripts ≡ replicate actor_count []) }
    {
        let mut scripts = Vec::with_capacity(alloc, ACTOR_COUNT)?;
        'actors: for _ in 0..ACTOR_COUNT {
            scripts.push(Script::make(alloc))?;
        }
        Ok(Scripts { scripts })
    }

    /// Puts a request last in the script of its actor. An Err means out of memory.
    pub fn push(&mut self, actor: Actor, request: Request) -> Result<(), Memory>
        requires { actor_number actor < actor_count }
        ensures ok { OnOk result (self.new ≡ pushed self.old (record { actor = actor; request = request })) }
        ensures err { OnErr result (self.new ≡ self.old) }
    {
        self.scripts[usize::from(actor.number())].push(request)
    }

    /// How many requests each actor has, of those that can be played.
    pub(crate) fn counts(&self) -> [u32; ACTOR_COUNT]
        ensures { (actor : ℕ) → actor < actor_count → slice_index result actor ≡ min (length (script_of self.now actor)) record_limit }
    {
        let mut counts = [0; ACTOR_COUNT];
        'actors: for actor in 0..ACTOR_COUNT {
            counts[actor] = self.scripts[actor].len();
        }
        counts
    }

    /// Whether no actor has a request.
    pub(crate) fn is_empty(&self) -> bool
        ensures { MatchBool result ((actor : ℕ) → script_of self.now actor ≡ []) (LacksOne self.now []) }
    {
        'actors: for actor in 0..ACTOR_COUNT {
            let count = self.scripts[actor].len();
            if count != 0 {
                return false;
            }
        }
        true
    }

    /// The first request of an actor's script.
    pub(crate) fn first(&self, actor: u8) -> Option<&Request>
        requires { actor < actor_count }
        ensures { option_copied result ≡ first_of (script_of self.now actor) }
    {
        self.scripts[usize::from(actor)].first()
    }

    /// Takes the first request of an actor's script away.
    pub(crate) fn next(&mut self, actor: u8) -> Option<Request>
        requires { actor < actor_count }
        ensures { MatchOption result ((script_of self.old actor ≡ []) × (self.new ≡ self.old))
            (λ request. script_of self.old actor ≡ request ∷ script_of self.new actor × (self.new ≡ with_script self.old actor (script_of self.new actor))) }
    {
        self.scripts[usize::from(actor)].next()
    }
}

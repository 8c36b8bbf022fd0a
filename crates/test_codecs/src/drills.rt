//! The session of a drill, as its records are spelled.

ghost use Rattle.std.specs.List.{AllByRecursion};
ghost use Rattle.tbl_kinds.specs.Records.{IsRecord};

use crate::line::room_for;
use session_records::write_record;
use std::alloc::Global;
use tbl_drill::{Scripted, drill_session};
use tbl_kinds::{Bytes, Memory};
use test_tables::{CaseFault, number_in, same_bytes};

/// Writes the records of a session one after another.
fn append_all(out: &mut Bytes, script: &mut Scripted) -> Result<(), Memory>
    requires { AllByRecursion IsRecord script.old }
{
    while let Some((actor, request)) = script.next() {
        write_record(out, actor, &request)?;
    }
    Ok(())
}

/// A seed and a number of rounds, as `7 300`.
fn seed_and_rounds(given: &str) -> Result<(u64, u32), CaseFault> {
    let Some((seed, rounds)) = given.split_once(' ') else {
        return Err(CaseFault::Unreadable);
    };
    match seed.parse() {
        Ok(seed) => Ok((seed, number_in(rounds)?)),
        Err(_) => Err(CaseFault::Unreadable),
    }
}

/// The records of a drill are these bytes.
pub(crate) fn try_drill(alloc: Global, given: &str, wanted: &[u8]) -> Result<(), CaseFault> {
    let (seed, rounds) = seed_and_rounds(given)?;
    let mut script = drill_session(alloc, seed, rounds)?;
    let mut out = room_for(alloc, 0)?;
    append_all(&mut out, &mut script)?;
    same_bytes(alloc, out.bytes(), wanted)
}

//! Transcripts of sessions in which several actors ask.

use std::alloc::{AllocError, Global};
use transcript::read_entry;

/// The ground and 16 applications.
const ACTOR_COUNT: u8 = 17;

/// How many bytes of an entry tell its place.
const PLACE_LENGTH: usize = 4;

/// How many bytes an entry has beside those of its reply and its packets.
const HEAD_LENGTH: usize = 21;

/// An entry of a transcript, without its place.
#[derive(Clone, Copy)]
struct Placeless<'t> {
    actor: u8,
    bytes: &'t [u8],
}

/// The entry that a transcript begins with, and what is after it; None where it begins with none.
fn first_entry(transcript: &[u8]) -> Option<(Placeless<'_>, &[u8])> {
    let head = read_entry(transcript)?;
    let length = HEAD_LENGTH + head.bytes_len as usize + head.packets_len as usize;
    let entry = Placeless {
        actor: head.actor,
        bytes: transcript.get(PLACE_LENGTH..length)?,
    };
    Some((entry, transcript.get(length..)?))
}

/// The entries of a transcript, and what is after them.
fn split(alloc: Global, transcript: &[u8]) -> Result<(Vec<Placeless<'_>>, &[u8]), AllocError> {
    let mut entries = Vec::new(alloc);
    let mut rest = transcript;
    for _ in 0..transcript.len() {
        let Some((entry, more)) = first_entry(rest) else {
            break;
        };
        entries.push(entry)?;
        rest = more;
    }
    Ok((entries, rest))
}

/// The actor of each entry.
pub(crate) fn actors_of(alloc: Global, transcript: &[u8]) -> Result<Vec<u8>, AllocError> {
    let (entries, _end) = split(alloc, transcript)?;
    let mut actors = Vec::new(alloc);
    for entry in &entries {
        actors.push(entry.actor)?;
    }
    Ok(actors)
}

/// A transcript in order of actors, each one's entries in their order and without their places.
pub(crate) fn by_actor(alloc: Global, transcript: &[u8]) -> Result<Vec<u8>, AllocError> {
    let (entries, end) = split(alloc, transcript)?;
    let mut sorted = Vec::new(alloc);
    for actor in 0..ACTOR_COUNT {
        for entry in &entries {
            if entry.actor == actor {
                sorted.extend_from_slice(entry.bytes)?;
            }
        }
    }
    sorted.extend_from_slice(end)?;
    Ok(sorted)
}

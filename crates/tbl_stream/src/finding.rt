//! Looks for the next record.

ghost use Rattle.std.specs.Prelude.{◌≡◌, false, IfOk, IfErr};
ghost use Rattle.tbl_stream.specs.Limits.{is_spent};
ghost use Rattle.tbl_stream.specs.Standing.{FindsNone, IsItem};

use crate::standing::Standing;
use session_records::{Next, next_record};
use std::alloc::Global;
use tbl_kinds::{Actor, Memory, Request};

/// Whether there is a limit and no further record may be played.
fn is_spent(left: Option<u32>) -> bool
    ensures { result ≡ is_spent left }
{
    match left {
        None => false,
        Some(count) => count == 0,
    }
}

/// The record at the front of bytes, if so many records may follow: its actor, and how many bytes it has. Its request is written to
/// `request`. An Err gives the standing of the stream if no record is whole or none may follow, or if memory ran out for its request.
pub fn next_item(
    alloc: Global,
    left: Option<u32>,
    bytes: &[u8],
    request: &mut Request,
) -> Result<(Actor, usize), Standing>
    ensures item { IfOk result (λ found. IsItem (record { actor = found.0; request = request.new }) found.1 bytes.now) }
    ensures follows { IfOk result (λ _. is_spent left ≡ false) }
    ensures none { IfErr result (λ standing. FindsNone standing left bytes.now) }
{
    if is_spent(left) {
        return Err(if bytes.is_empty() {
            Standing::Open
        } else {
            Standing::TooMany
        });
    }
    match next_record(alloc, bytes, request) {
        Err(Memory) => Err(Standing::Memory),
        Ok(Next::End) => Err(Standing::Open),
        Ok(Next::Short) => Err(Standing::Open),
        Ok(Next::Bad) => Err(Standing::Bad),
        Ok(Next::Item { actor, used }) => Ok((actor, used)),
    }
}

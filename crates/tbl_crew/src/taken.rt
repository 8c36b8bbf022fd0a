//! The bytes of a Read, taken of a lent image before the turn.

ghost use Rattle.std.specs.Prelude.{◌≡◌, ◌<◌, length, position, IfOk, IfSome, IfNone, Some, None};
ghost use Rattle.tbl_crew.specs.Reads.{Keeps, is_of, lent_by, IsBeyond, IsTakenOf};

use crate::held::ReadPlan;
use lent_images::slice_of;
use std::alloc::Global;
use tbl_kinds::{Bytes, Memory};
use tbl_registry::Pin;

/// What was taken of a lent image for a Read, before its turn.
#[derive(Drop)]
pub(crate) struct Taken<'a> {
    pub(crate) read: ReadPlan,
    pub(crate) pin: &'a Pin,
    pub(crate) slice: Bytes,
}

/// The place of the pin of this handle.
fn place_of(pins: &[Pin], handle: u16) -> Option<usize>
    ensures first { result ≡ position (is_of handle) pins.now }
    ensures within { IfSome result (λ n. n < length pins.now) }
{
    pins.iter().position(|pin| pin.handle() == handle)
}

/// The pin of this handle.
fn pin_of(pins: &[Pin], handle: u16) -> Option<&Pin>
    ensures found { IfSome result (λ pin. lent_by pins.now handle ≡ Some pin.now) }
    ensures none { IfNone result (lent_by pins.now handle ≡ None) }
{
    match place_of(pins, handle) {
        Some(n) => Some(&pins[n]),
        None => None,
    }
}

/// The bytes that an actor's next request reads, taken of the image that was lent by its handle: what a worker does before its turn.
/// None if no image was lent by this handle, or if they don't lie inside it. An Err means that memory ran out.
pub(crate) fn take_ahead(
    alloc: Global,
    pins: &[Pin],
    read: ReadPlan,
) -> Result<Option<Taken<'_>>, Memory>
    ensures read { IfOk result (λ ahead. IfSome ahead (λ taken. taken.read ≡ read)) }
    ensures taken { IfOk result (λ ahead. IfSome ahead (λ taken. IsTakenOf pins.now read taken.pin.now taken.slice.list)) }
    ensures none { IfOk result (λ ahead. IfNone ahead (IsBeyond read (lent_by pins.now read.handle))) }
{
    let Some(pin) = pin_of(pins, read.handle) else {
        return Ok(None);
    };
    match slice_of(alloc, pin, read.offset, read.len)? {
        Some(slice) => Ok(Some(Taken { read, pin, slice })),
        None => Ok(None),
    }
}

/// Keeps the pin of a handle instead of its earlier one. If memory runs out it isn't kept.
pub(crate) fn keep(pins: &mut Vec<Pin>, pin: Pin)
    ensures { Keeps pins.old.items pins.new.items pin }
{
    match place_of(pins, pin.handle()) {
        Some(n) => pins[n] = pin,
        None => {
            if pins.reserve(1).is_ok() {
                pins.push_reserved(pin);
            }
        }
    }
}

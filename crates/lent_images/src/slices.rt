//! A part of an image, or the whole of it.

ghost use Rattle.std.specs.Prelude.{◌≡◌, ◌+◌, ◌<◌, length, IfOk, IfSome, IfNone};
ghost use Rattle.tbl_kinds.specs.Numbers.{piece};

use std::alloc::Global;
use tbl_kinds::{Bytes, INLINE_LIMIT, Memory};
use tbl_registry::Pin;

/// The bytes that a Read asks for, of the image: so many from an offset on; None if they don't lie inside it. An Err means that memory ran
/// out. If they are the whole image and more than a value itself can hold, they aren't copied: they have the memory of the image.
#[tactic(auto, using(crate::proofs::WholeImages::whole_image))]
pub fn slice_of(alloc: Global, pin: &Pin, offset: u32, len: u32) -> Result<Option<Bytes>, Memory>
    ensures slice { IfOk result (λ taken. IfSome taken (λ slice. slice.list ≡ piece offset len pin.now.bytes)) }
    ensures outside { IfOk result (λ taken. IfNone taken (length pin.now.bytes < offset + len)) }
{
    let bytes = pin.bytes();
    let from = offset as usize;
    let to = from + len as usize;
    if to > bytes.len() {
        return Ok(None);
    }
    if from == 0 && to == bytes.len() && to > INLINE_LIMIT {
        return Ok(Some(pin.bytes_again(alloc)?));
    }
    let mut slice = Bytes::make(alloc, to - from)?;
    slice.append(&bytes[from..to]);
    Ok(Some(slice))
}

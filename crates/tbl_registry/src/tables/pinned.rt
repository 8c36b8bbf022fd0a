//! The images that handles pin: their bytes, and the images themselves.

ghost use Rattle.std.specs.Prelude.{◌≡◌, Ok, IsSome, IfSome};
ghost use Rattle.tbl_model.specs.AddressSteps.{read};
ghost use Rattle.tbl_model.specs.TableSteps.{access_of};
ghost use Rattle.tbl_registry.specs.Lending.{Reads, LendsImage};

use super::Tables;
use super::handles::access;
use crate::pin::Pin;
use buffer_pairs::Image;
use tbl_kinds::{INLINE_LIMIT, Memory, Status};

impl Tables {
    /// The stated bytes of the image that the handle pins.
    pub fn read(&self, handle: u16, offset: u32, len: u32) -> Result<&[u8], Status>
        requires { IsSome (access_of self.now handle) }
        ensures { Reads handle offset len self.now result }
    {
        let Some((view, _, table)) = access(&self.rows, &self.handles, handle) else {
            unreachable!();
        };
        if !view.pinned {
            return Err(Status::ERR_NOT_PINNED);
        }
        let Some(image) = table.whole(view.old) else {
            unreachable!();
        };
        let image = image.bytes();
        let from = offset as usize;
        let to = from + len as usize;
        if to > image.len() {
            return Err(Status::ERR_OUT_OF_RANGE);
        }
        Ok(&image[from..to])
    }

    /// The image that the handle pins, if the stated bytes are the whole of it and more than a value itself can hold: a read of them can
    /// have them without a copy. Otherwise None.
    pub fn read_whole(&self, handle: u16, offset: u32, len: u32) -> Option<&Image>
        ensures { IfSome result (λ image. read handle offset len self.now ≡ Ok image.now) }
    {
        if offset != 0 || len as usize <= INLINE_LIMIT {
            return None;
        }
        let Some((view, _, table)) = access(&self.rows, &self.handles, handle) else {
            return None;
        };
        if !view.pinned {
            return None;
        }
        let image = table.whole(view.old)?;
        if image.bytes().len() != len as usize {
            return None;
        }
        Some(image)
    }

    /// Lends the image that a handle pins, with the place of the call that got its address. None if the handle leads to no table, or pins
    /// no image. An Err means that the image has as many owners as can be counted.
    pub fn lend(&self, handle: u16, place: u64) -> Result<Option<Pin>, Memory>
        ensures { LendsImage handle place self.now result }
    {
        let Some((view, _, table)) = access(&self.rows, &self.handles, handle) else {
            return Ok(None);
        };
        if !view.pinned {
            return Ok(None);
        }
        let Some(pinned) = table.whole(view.old) else {
            unreachable!();
        };
        Ok(Some(Pin::of(pinned.share()?, handle, place, table.name().copy())))
    }
}

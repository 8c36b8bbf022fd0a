//! The images of a table for a further table.

ghost use Rattle.std.specs.Prelude.{◌≡◌, IfOk};

use super::{Buffers, Kept};
use crate::image::Image;
use tbl_kinds::Memory;

/// A further owner of an image, if there is one.
fn share(image: &Option<Image>) -> Result<Option<Image>, Memory>
    ensures { IfOk result (λ copy. copy ≡ image.now) }
{
    match image {
        Some(image) => Ok(Some(image.share()?)),
        None => Ok(None),
    }
}

impl Kept {
    /// The same place once more, with a further owner of an image that is in no other.
    fn duplicate(&self) -> Result<Kept, Memory>
        ensures { IfOk result (λ copy. copy ≡ self.now) }
    {
        match self {
            Kept::Nothing => Ok(Kept::Nothing),
            Kept::Last => Ok(Kept::Last),
            Kept::Before => Ok(Kept::Before),
            Kept::Own(image) => Ok(Kept::Own(image.share()?)),
        }
    }
}

impl Buffers {
    /// The same images for a further table. No byte is copied: each image has a further owner, so that nobody changes it in place. An
    /// Err means that one has as many owners as can be counted.
    pub fn duplicate(&self) -> Result<Buffers, Memory>
        ensures { IfOk result (λ copy. copy ≡ self.now) }
    {
        Ok(Buffers {
            last: share(&self.last)?,
            before: share(&self.before)?,
            double: self.double,
            kept: self.kept.duplicate()?,
            spare: None,
        })
    }
}

//! The images of a registered table.

ghost use Rattle.std.specs.Prelude.{◌≡◌, ◌<◌, ◌+◌, ◌-◌, ◌^◌, None, Some, IfSome, is_some, length, if◌then◌else◌};
ghost use Rattle.std.specs.Option.{option_copied};
ghost use Rattle.tbl_model.specs.Tables.{is_double};
ghost use Rattle.tbl_registry.specs.Rows.{IsTable};
ghost use Rattle.tbl_registry.specs.Shown.{KeepsWord};

use super::Row;
use buffer_pairs::Image;

impl Row {
    /// Its last image, or the one before it, with all that own it.
    pub(crate) fn whole(&self, before: bool) -> Option<&Image>
        ensures image { option_copied result ≡ (if before then self.now.before else self.now.last) }
        ensures size { IfSome result (λ image. length image.now ≡ self.now.size) }
        ensures table { IsTable self.now }
    {
        if before {
            self.buffers.before()
        } else {
            self.buffers.active()
        }
    }

    /// The check word of its last image, or else of that of its open load. It is kept with the image.
    pub(crate) fn keep_check_word(&mut self, active: bool) -> Option<u16>
        ensures { KeepsWord result active (Some self.old) self.old self.new }
    {
        if active {
            return self.buffers.keep_check_word();
        }
        match &mut self.load {
            Some(load) => Some(load.image.keep_check_word()),
            None => None,
        }
    }

    /// An image that it doesn't have any more, for the memory of its bytes.
    pub(crate) fn take_spare(&mut self) -> Option<Image>
        ensures { self.new ≡ self.old }
    {
        self.buffers.take_spare()
    }

    /// Takes an image as its last one.
    pub(crate) fn put(&mut self, image: Image)
        requires size { length image ≡ self.old.size }
        requires count { self.old.count < 2 ^ 32 - 1 }
        ensures table { IsTable self.old }
        ensures put { self.new ≡ record self.old { count = self.old.count + 1; last = Some image; before = if is_double self.old then self.old.last else None } }
    {
        self.buffers.put(image);
        self.count += 1;
    }

    /// Whether it has an image before the last.
    pub(crate) fn has_before(&self) -> bool
        ensures { result ≡ is_some self.now.before }
    {
        self.buffers.before().is_some()
    }

    /// Drops the image before the last.
    pub(crate) fn drop_before(&mut self)
        ensures { self.new ≡ record self.old { before = None } }
    {
        self.buffers.drop_before();
    }
}

//! The open load of a registered table.

ghost use Rattle.std.specs.Prelude.{◌≡◌, ◌+◌, ◌≤◌, true, false, None, Some, IsSome, IfSome, is_some, length, if◌then◌else◌};
ghost use Rattle.std.specs.Option.{option_map};
ghost use Rattle.tbl_kinds.specs.Numbers.{patched};
ghost use Rattle.tbl_model.specs.State.{Load};
ghost use Rattle.tbl_model.specs.Tables.{is_dump_only};
ghost use Rattle.tbl_model.specs.TableSteps.{unchecked, base};
ghost use Rattle.tbl_registry.specs.Rows.{IsTable};
ghost use Rattle.tbl_registry.specs.Shown.{ShowsPart, loaded_of};
ghost use Rattle.tbl_registry.specs.Views.{row_view};

use super::{OpenLoad, Row};
use buffer_pairs::Image;

impl Row {
    /// Whether a load of it is open.
    pub(crate) fn has_load(&self) -> bool
        ensures { result ≡ is_some self.now.load }
    {
        self.load.is_some()
    }

    /// The image of its open load.
    pub(crate) fn load(&self) -> Option<&[u8]>
        ensures { ShowsPart result loaded_of (Some self.now) }
    {
        match &self.load {
            Some(load) => Some(load.image.bytes()),
            None => None,
        }
    }

    /// Whether its open load was validated since its last change.
    pub(super) fn is_checked(&self) -> bool
        ensures { result ≡ (row_view self.now).checked }
    {
        match &self.load {
            Some(load) => load.checked,
            None => false,
        }
    }

    /// Opens a load with this image, or replaces the image of the open load by it.
    pub(crate) fn set_load(&mut self, image: Image)
        requires size { length image ≡ self.old.size }
        requires loadable { is_dump_only self.old ≡ false }
        ensures table { IsTable self.old }
        ensures load { self.new ≡ record self.old { load = unchecked image } }
    {
        self.load = Some(OpenLoad {
            image,
            checked: false,
        });
    }

    /// Writes bytes into its open load in place, if nobody else has the load's image. Whether it did.
    pub(crate) fn write_load(&mut self, offset: u32, bytes: &[u8]) -> bool
        requires load { IsSome self.old.load }
        requires within { offset + length bytes.now ≤ self.old.size }
        ensures { self.new ≡ record self.old { load = if result then unchecked (patched (base self.old) offset bytes.now) else self.old.load } }
    {
        let Some(load) = &mut self.load else {
            unreachable!();
        };
        let written = load.image.write(offset, bytes);
        if written {
            load.checked = false;
        }
        written
    }

    /// Marks its open load as validated since its last change, or takes the mark away.
    pub(crate) fn set_checked(&mut self, checked: bool)
        requires { IsSome self.old.load }
        ensures { self.new ≡ record self.old { load = option_map (λ (load : Load). record load { checked = checked }) self.old.load } }
    {
        let Some(load) = &mut self.load else {
            unreachable!();
        };
        load.checked = checked;
    }

    /// The activation of its open load is requested.
    pub(crate) fn ask(&mut self)
        ensures { self.new ≡ record self.old { activation = true } }
    {
        self.asked = true;
    }

    /// Closes its load, whose activation isn't requested any more, and gives the load's image.
    pub(crate) fn end_load(&mut self) -> Option<Image>
        ensures table { IsTable self.old }
        ensures image { result ≡ option_map (λ (load : Load). load.image) self.old.load }
        ensures size { IfSome result (λ image. length image ≡ self.old.size) }
        ensures closed { self.new ≡ record self.old { load = None; activation = false } }
    {
        self.asked = false;
        match self.load.take() {
            Some(load) => Some(load.image),
            None => None,
        }
    }
}

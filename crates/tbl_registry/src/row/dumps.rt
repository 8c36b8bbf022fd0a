//! The dump of a registered table.

ghost use Rattle.std.specs.Prelude.{◌≡◌, Some, [], true, unwrap_or};
ghost use Rattle.std.specs.Option.{option_copied};
ghost use Rattle.tbl_model.specs.State.{quiet, requested};
ghost use Rattle.tbl_model.specs.Tables.{is_quiet};
ghost use Rattle.tbl_model.specs.TableSteps.{filled_with, last_image};
ghost use Rattle.tbl_registry.specs.Shown.{ShowsFilled};
ghost use Rattle.tbl_registry.specs.Views.{dump_view, dump_name};

use super::{Dump, DumpFile, Row};
use buffer_pairs::Buffers;
use tbl_kinds::Name64;

impl Row {
    /// Whether no dump of it is pending.
    pub(super) fn is_quiet(&self) -> bool
        ensures { result ≡ is_quiet self.now.dump }
    {
        match self.dump {
            DumpFile::Quiet => true,
            DumpFile::Asked(_) | DumpFile::Filled(_) => false,
        }
    }

    /// How far its dump has come.
    pub(super) fn dump(&self) -> Dump
        ensures { result ≡ dump_view self.now.dump }
    {
        match self.dump {
            DumpFile::Quiet => Dump::Quiet,
            DumpFile::Asked(_) => Dump::Asked,
            DumpFile::Filled(_) => Dump::Filled,
        }
    }

    /// The name of its dump's file.
    pub(crate) fn dump_name(&self) -> Option<&Name64>
        ensures { option_copied result ≡ dump_name self.now.dump }
    {
        match &self.dump {
            DumpFile::Quiet => None,
            DumpFile::Asked(file) => Some(file),
            DumpFile::Filled(file) => Some(file),
        }
    }

    /// The image of its filled dump.
    pub(crate) fn filled(&self) -> Option<&[u8]>
        ensures { ShowsFilled result (Some self.now) }
    {
        match self.dump {
            DumpFile::Filled(_) => Some(kept_bytes(&self.buffers)),
            DumpFile::Quiet | DumpFile::Asked(_) => None,
        }
    }

    /// A dump is requested, as this file.
    pub(crate) fn ask_dump(&mut self, file: &Name64)
        requires { is_quiet self.old.dump ≡ true }
        ensures { self.new ≡ record self.old { dump = requested file.now } }
    {
        self.dump = DumpFile::Asked(file.copy());
    }

    /// The requested dump is filled with the last image.
    pub(crate) fn fill_dump(&mut self)
        ensures { self.new ≡ record self.old { dump = filled_with (last_image self.old) self.old.dump } }
    {
        self.buffers.keep();
        self.dump = match std::mem::replace(&mut self.dump, DumpFile::Quiet) {
            DumpFile::Quiet => DumpFile::Quiet,
            DumpFile::Asked(file) => DumpFile::Filled(file),
            DumpFile::Filled(file) => DumpFile::Filled(file),
        };
    }

    /// No dump is pending any more.
    pub(crate) fn end_dump(&mut self)
        ensures { self.new ≡ record self.old { dump = quiet } }
    {
        self.buffers.end_keep();
        self.dump = DumpFile::Quiet;
    }
}

/// The bytes of the image that is kept, none if there is none.
fn kept_bytes(buffers: &Buffers) -> &[u8]
    ensures { result.now ≡ unwrap_or buffers.now.kept [] }
{
    match buffers.kept() {
        Some(image) => image.bytes(),
        None => &[],
    }
}

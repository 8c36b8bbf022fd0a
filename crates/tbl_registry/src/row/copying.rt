//! A registered table once more.

ghost use Rattle.std.specs.Prelude.{◌≡◌, IfOk};

use super::{DumpFile, OpenLoad, Row};
use tbl_kinds::Memory;

impl OpenLoad {
    /// The same load, whose image has a further owner.
    fn duplicate(&self) -> Result<OpenLoad, Memory>
        ensures { IfOk result (λ copy. copy ≡ self.now) }
    {
        Ok(OpenLoad {
            image: self.image.share()?,
            checked: self.checked,
        })
    }
}

/// The same load once more, if one is open.
fn copy_load(load: &Option<OpenLoad>) -> Result<Option<OpenLoad>, Memory>
    ensures { IfOk result (λ copy. copy ≡ load.now) }
{
    match load {
        Some(load) => Ok(Some(load.duplicate()?)),
        None => Ok(None),
    }
}

impl DumpFile {
    /// The same dump once more.
    fn duplicate(&self) -> DumpFile
        ensures { result ≡ self.now }
    {
        match self {
            DumpFile::Quiet => DumpFile::Quiet,
            DumpFile::Asked(file) => DumpFile::Asked(file.copy()),
            DumpFile::Filled(file) => DumpFile::Filled(file.copy()),
        }
    }
}

impl Row {
    /// The same table for a further registry. Its images have a further owner each.
    pub(crate) fn duplicate(&self) -> Result<Row, Memory>
        ensures { IfOk result (λ copy. copy ≡ self.now) }
    {
        Ok(Row {
            name: self.name.copy(),
            owner: self.owner,
            handle: self.handle,
            size: self.size,
            flags: self.flags,
            validator: self.validator,
            count: self.count,
            buffers: self.buffers.duplicate()?,
            load: copy_load(&self.load)?,
            asked: self.asked,
            dump: self.dump.duplicate(),
            notice: self.notice,
            seconds: self.seconds,
            sub: self.sub,
            file: self.file.copy(),
        })
    }
}

ghost use Rattle.std.specs.Prelude.{◌≡◌, IfOk};

use std::marker::Model;
use tbl_kinds::{Bytes, FILE_NAME_LENGTH, Memory, Uplink};

/// From how many bytes on a file is in the same memory as what it was made of. A copy of fewer takes less than a block for the memory's owners.
const SHARED_LENGTH: usize = 2_048;

/// The bytes of a file. In the memory of an uplink they come after the field of its name.
#[derive(Drop)]
pub struct Contents {
    bytes: Bytes,
    begin: usize,
}

impl Model for Contents {
    ghost use Rattle.std.specs.Prelude.{ℕ, ◌≤◌, List, length, drop};

    ghost Value = { List ℕ };

    ghost view = { λ c. drop c.begin c.bytes.list };

    ghost invariant = { λ c. c.begin ≤ length c.bytes.list };
}

impl Contents {
    /// A file of these bytes.
    pub fn of(bytes: Bytes) -> Contents
        ensures { result ≡ bytes.list }
    {
        Contents { bytes, begin: 0 }
    }

    /// A file of the same bytes: few are copied, and many are in the same memory.
    pub fn again(bytes: &mut Bytes) -> Result<Contents, Memory>
        ensures bytes { IfOk result (λ contents. contents ≡ bytes.old.list) }
        ensures same { bytes.new ≡ bytes.old }
    {
        let bytes = if bytes.bytes().len() < SHARED_LENGTH {
            bytes.copy()?
        } else {
            bytes.again()?
        };
        Ok(Contents::of(bytes))
    }

    /// The bytes of an uplinked file: few are copied, and many are in the same memory.
    pub fn uplinked(file: &mut Uplink) -> Result<Contents, Memory>
        ensures bytes { IfOk result (λ contents. contents ≡ file.old.bytes) }
        ensures same { file.new ≡ file.old }
    {
        if file.bytes().len() < SHARED_LENGTH {
            let copy = Bytes::of(file.allocator(), file.bytes())?;
            return Ok(Contents::of(copy));
        }
        let _spelling = file.spelling();
        let bytes = file.again()?;
        Ok(Contents {
            bytes,
            begin: FILE_NAME_LENGTH,
        })
    }

    /// The same bytes once more: copied, or in memory that others have too.
    pub(crate) fn duplicate(&self) -> Result<Contents, Memory>
        ensures { IfOk result (λ copy. copy ≡ self.now) }
    {
        Ok(Contents {
            bytes: self.bytes.copy()?,
            begin: self.begin,
        })
    }

    /// The bytes.
    pub fn bytes(&self) -> &[u8]
        ensures { result.now ≡ self.now }
    {
        &self.bytes.bytes()[self.begin..]
    }
}

//! Appends text.

ghost use Rattle.std.specs.Prelude.{◌≡◌, ◌++◌, OnOk, OnErr};
ghost use Rattle.std.specs.Fmt.{decimal};

use itoa::Buffer;
use tbl_kinds::{Bytes, Memory};

/// Appends these bytes. An Err is out of memory, and appends nothing.
pub fn append_text(out: &mut Bytes, piece: &[u8]) -> Result<(), Memory>
    ensures ok { OnOk result (out.new.list ≡ out.old.list ++ piece.now) }
    ensures err { OnErr result (out.new ≡ out.old) }
{
    out.reserve(piece.len())?;
    out.append(piece);
    Ok(())
}

/// Appends a number in decimal digits. An Err is out of memory, and appends nothing.
pub fn append_decimal(out: &mut Bytes, number: u64) -> Result<(), Memory>
    ensures ok { OnOk result (out.new.list ≡ out.old.list ++ decimal number) }
    ensures err { OnErr result (out.new ≡ out.old) }
{
    let mut buffer = Buffer::new();
    append_text(out, buffer.format(number).as_bytes())
}

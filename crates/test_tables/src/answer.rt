ghost use Rattle.std.specs.Prelude.{◌≡◌, IfOk};

use crate::fault::CaseFault;
use std::alloc::Global;
use tbl_kinds::{Bytes, FILE_NAME_LENGTH, Memory, Name64, Uplink};

/// Whether a text is the one that is wanted, but for spaces at its end.
pub fn same_text(came: String, wanted: &str) -> Result<(), CaseFault> {
    if came.trim_end() == wanted {
        Ok(())
    } else {
        Err(CaseFault::Differs(came))
    }
}

/// Whether bytes are those that are wanted.
pub fn same_bytes(alloc: Global, came: &[u8], wanted: &[u8]) -> Result<(), CaseFault> {
    if came == wanted {
        Ok(())
    } else {
        Err(CaseFault::Differs(hex::encode(alloc, came)?))
    }
}

/// The same bytes as the service keeps them.
pub fn kept(alloc: Global, bytes: &[u8]) -> Result<Bytes, Memory>
    ensures { IfOk result (λ kept. kept.list ≡ bytes.now) }
{
    let mut kept = Bytes::make(alloc, bytes.len())?;
    kept.append(bytes);
    Ok(kept)
}

/// An uplink of a file.
pub fn uplink_of(alloc: Global, name: &Name64, bytes: &[u8]) -> Result<Uplink, CaseFault> {
    let mut spelling = Bytes::make(alloc, name.field_len())?;
    name.append_field(&mut spelling);
    spelling.reserve(bytes.len())?;
    spelling.append(bytes);
    let front = spelling.bytes();
    if front.len() < FILE_NAME_LENGTH || Name64::exact(&front[..FILE_NAME_LENGTH]).is_none() {
        return Err(CaseFault::Unreadable);
    }
    Ok(Uplink::of(spelling))
}

/// One word, as a program is given words.
pub fn one_word(alloc: Global, word: &str) -> Result<Vec<Bytes>, CaseFault> {
    let word = kept(alloc, word.as_bytes())?;
    Ok(vec![in alloc; word]?)
}

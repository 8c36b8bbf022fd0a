ghost use Rattle.tbl_kinds.specs.Heads.{IsShort};
ghost use Rattle.session_records.specs.Reading.{IsLacking};

use crate::head::{HEAD_LEN, Head};

/// How many bytes are missing after the beginning of a record: up to the end of its head, and once that is there, up to
/// the end of its body. With fewer the bytes stay short.
#[tactic(auto, unfolding(tbl_kinds::specs::Heads::is_short))]
pub fn bytes_lacking(bytes: &[u8]) -> usize
    requires { IsShort bytes.now }
    ensures { IsLacking bytes.now result }
{
    if bytes.len() < HEAD_LEN {
        return HEAD_LEN - bytes.len();
    }
    Head::of(bytes).len - (bytes.len() - HEAD_LEN)
}

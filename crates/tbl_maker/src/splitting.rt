//! Bytes that are parted at one of them.

ghost use Rattle.std.specs.Prelude.{IfSome, IfNone};
ghost use Rattle.tbl_maker.specs.Lines.{Lacks, IsSplit};

/// What stands before the first byte of this kind, and what stands after it; None where there is none.
pub(crate) fn split_at_byte(bytes: &[u8], byte: u8) -> Option<(&[u8], &[u8])>
    ensures found { IfSome result (λ parts. IsSplit byte bytes.now parts.0.now parts.1.now) }
    ensures none { IfNone result (Lacks byte bytes.now) }
{
    for (i, found) in bytes.iter().enumerate() {
        if *found == byte {
            return Some((&bytes[..i], &bytes[i + 1..]));
        }
    }
    None
}

//! What C gets.

ghost use Rattle.std.specs.Prelude.{◌≡◌, drop};
ghost use Rattle.tbl_c.specs.Told.{over_front};

/// What C gets of a call besides bytes.
#[repr(C)]
#[derive(Clone, Copy)]
pub struct Told {
    /// How many bytes the entry has; with `VERDICT_MISSING`, how many the image has.
    pub length: usize,
    /// With `VERDICT_MISSING` the number of the function that has to judge the image, and else 0.
    pub number: u32,
}

/// What C is told of the writes of preserved memory.
#[repr(C)]
#[derive(Clone, Copy)]
pub struct Writes {
    /// How many were made, those included that broke off.
    pub made: u64,
    /// How many failed.
    pub faults: u64,
    /// How many were stopped.
    pub stops: u64,
    /// Where the last one that broke off begins, and how many bytes it would have written; 0 and 0 if none did.
    pub at: u32,
    pub length: u32,
}

/// Copies bytes from a place on over the front of others, as many as there is room for.
pub(crate) fn copy_out(bytes: &[u8], from: usize, out: &mut [u8])
    ensures { out.new ≡ over_front (drop from bytes.now) out.old }
{
    let (_, rest) = bytes.split_at(from.min(bytes.len()));
    let count = rest.len().min(out.len());
    out[..count].copy_from_slice(&rest[..count]);
}

ghost use Rattle.std.specs.Prelude.{⊤, [], ◌∷◌, codes};

use bitflags::{Flag, Flags, bitflag_items};

/// A table's options, of the bits that `CFE_TBL_Register` takes.
#[derive(Clone, Copy, PartialEq, Eq)]
pub struct Options(u16);

bitflag_items! {
    impl Options: u16 {
        const DOUBLE = 0x0001;
        const DUMP_ONLY = 0x0002;
        const CRITICAL = 0x0008;
    }
}

impl Flags for Options {
    type Bits = u16;

    ghost exact = { ⊤ };

    ghost table = { (codes "DOUBLE", 1) ∷ (codes "DUMP_ONLY", 2) ∷ (codes "CRITICAL", 8) ∷ [] };

    ghost set_of = { λ o. o.0 };

    fn flags<'a>() -> &'a [Flag<Options>] {
        Options::FLAGS
    }

    fn bits(&self) -> u16 {
        self.0
    }

    fn from_bits_retain(bits: u16) -> Options {
        Options(bits)
    }
}

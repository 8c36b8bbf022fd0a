ghost use Rattle.std.specs.Prelude.{◌≡◌};
ghost use Rattle.tbl_kinds.specs.Admitted.{all_admitted, is_admitted};

use arrayvec::ArrayVec;
use std::marker::Model;

/// The spacecraft and the processors that table files may come from, by the identifiers of the cFE file header
/// (`CFE_PLATFORM_TBL_VALID_SCID_1` and `CFE_PLATFORM_TBL_VALID_PRID_1` with their like, cfe_platform_cfg.h). An empty list admits
/// all.
#[derive(Drop)]
pub struct Admit {
    pub spacecraft: ArrayVec<u32, 2>,
    pub processor: ArrayVec<u32, 2>,
}

impl Model for Admit {
    ghost use Rattle.tbl_kinds.specs.Admitted.{Admitted};

    ghost Value = { Admitted };

    ghost view = { λ a. record { spacecraft = a.spacecraft.items; processor = a.processor.items } };
}

/// Whether a list of identifiers admits this one.
fn is_admitted(ids: &[u32], id: u32) -> bool
    ensures { result ≡ is_admitted ids.now id }
{
    ids.is_empty() || ids.contains(&id)
}

impl Admit {
    /// Empty lists, which admit all.
    pub fn all() -> Admit
        ensures { result ≡ all_admitted }
    {
        Admit {
            spacecraft: ArrayVec::new(),
            processor: ArrayVec::new(),
        }
    }

    /// Whether files of this spacecraft are admitted.
    pub fn admits_spacecraft(&self, id: u32) -> bool
        ensures { result ≡ is_admitted self.now.spacecraft id }
    {
        is_admitted(self.spacecraft.as_slice(), id)
    }

    /// Whether files of this processor are admitted.
    pub fn admits_processor(&self, id: u32) -> bool
        ensures { result ≡ is_admitted self.now.processor id }
    {
        is_admitted(self.processor.as_slice(), id)
    }
}

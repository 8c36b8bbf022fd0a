ghost use Rattle.std.specs.Prelude.{◌≡◌, []};
ghost use Rattle.tbl_model.specs.Pending.{is_pending, without_pair, of_other_rows};
ghost use Rattle.validation.specs.Pends.{Pends};

use arrayvec::ArrayVec;
use std::marker::Model;

/// How many validations can be pending (`CFE_PLATFORM_TBL_MAX_NUM_VALIDATIONS`).
const MOST: usize = 10;

/// Why a validation isn't requested. Nothing was changed.
#[derive(Clone, Copy, Debug, PartialEq, Eq, Drop, thiserror::Error)]
pub enum PendFault {
    /// This image's validation is pending already.
    #[error("this validation is pending already")]
    Twice,
    /// Ten validations are pending.
    #[error("ten validations are pending")]
    Full,
}

/// The validations that the ground asked for and that the owners haven't done: the table's row, and whether its active image
/// is to be judged or that of its open load.
#[derive(Drop)]
pub struct Pending {
    pairs: ArrayVec<(u8, bool), MOST>,
}

impl Model for Pending {
    ghost use Rattle.std.specs.Prelude.{ℕ, List, Bool};

    ghost Value = { List (ℕ × Bool) };

    ghost view = { λ pending. pending.pairs.items };
}

impl Pending {
    /// No validation is pending.
    pub fn make() -> Pending
        ensures { result ≡ [] }
    {
        Pending {
            pairs: ArrayVec::new(),
        }
    }

    /// The same validations, in the same order. It takes no memory.
    pub fn duplicate(&self) -> Pending
        ensures { result ≡ self.now }
    {
        let mut pairs = ArrayVec::new();
        let _ = pairs.try_extend_from_slice(self.pairs.as_slice());
        Pending { pairs }
    }

    /// Whether the validation of this image of this row's table is pending.
    pub fn has(&self, row: u8, active: bool) -> bool
        ensures { result ≡ is_pending row active self.now }
    {
        self.pairs
            .iter()
            .any(|pair| pair.0 == row && pair.1 == active)
    }

    /// Asks a validation: it comes after those that are pending.
    pub fn request(&mut self, row: u8, active: bool) -> Result<(), PendFault>
        ensures { Pends row active self.old self.new result }
    {
        // That it is pending already is reported even if the list is full.
        if self.has(row, active) {
            return Err(PendFault::Twice);
        }
        if self.pairs.is_full() {
            return Err(PendFault::Full);
        }
        self.pairs.push((row, active));
        Ok(())
    }

    /// The validation of this image isn't pending any more, if it was.
    pub fn drop_pair(&mut self, row: u8, active: bool)
        ensures { self.new ≡ without_pair row active self.old }
    {
        self.pairs.retain(|pair| pair.0 != row || pair.1 != active);
    }

    /// No validation of the table of a row is pending any more.
    pub fn drop_row(&mut self, row: u8)
        ensures { self.new ≡ of_other_rows row self.old }
    {
        self.pairs.retain(|pair| pair.0 != row);
    }

    /// No validation is pending any more.
    pub fn clear(&mut self)
        ensures { self.new ≡ [] }
    {
        self.pairs.clear();
    }
}

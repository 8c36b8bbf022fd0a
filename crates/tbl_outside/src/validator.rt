// Validation functions: what applications judge the images of their tables with.
ghost use Rattle.std.specs.Prelude.{◌≡◌, ◌+◌, ◌<◌, ◌^◌, ℕ, List};
ghost use Rattle.std.proofs.Common.{ℤ};

/// A validation function of an application (`CFE_TBL_CallbackFuncPtr_t`; cFE User's Guide, Table Services, "Validating tables").
pub trait Validator: Drop {
    /// What it answers on an image. It never changes.
    ghost verdict: { Self → List ℕ → ℤ };

    /// How often it was asked.
    ghost asked: { Self → ℕ };

    /// Judges an image: 0 where it may go active, and else a number of the application's own.
    fn validate(&mut self, image: &[u8]) -> i32
        requires { asked self.old < 2 ^ 63 }
        ensures verdict { result ≡ verdict self.old image.now }
        ensures steady { (bytes : List ℕ) → verdict self.new bytes ≡ verdict self.old bytes }
        ensures asked { asked self.new ≡ asked self.old + 1 };
}

impl Validator for Box<dyn Validator + Send> {
    ghost verdict = { λ b bytes. (Validator-box b).verdict b.value bytes };

    ghost asked = { λ b. (Validator-box b).asked b.value };

    fn validate(&mut self, image: &[u8]) -> i32 {
        self.as_mut().validate(image)
    }
}

/// A validation function and the application whose it is, from 1 to 16.
#[derive(Drop)]
pub struct KitEntry<C = Box<dyn Validator + Send>> {
    pub app: u8,
    pub check: C,
}

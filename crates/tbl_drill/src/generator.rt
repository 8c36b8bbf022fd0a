//! The numbers that decide a drill.

ghost use Rattle.std.specs.Prelude.{◌≡◌, ◌<◌};
ghost use Rattle.tbl_drill.specs.Generator.{after, drawn};

/// What a number is multiplied by (the generator of Knuth's MMIX).
const MULTIPLIER: u64 = 6_364_136_223_846_793_005;

/// What is added to it then.
const INCREMENT: u64 = 1_442_695_040_888_963_407;

/// A linear congruential generator of 64 bits.
#[derive(Drop)]
pub(crate) struct Generator {
    number: u64,
}

impl Generator {
    /// A generator that begins with this number.
    pub(crate) fn new(seed: u64) -> Generator
        ensures { result.number ≡ seed }
    {
        Generator { number: seed }
    }

    /// Goes on to the next number, and draws one below a bound by its upper 31 bits.
    #[tactic(auto, unfolding(crate::specs::Generator::after, crate::specs::Generator::drawn))]
    pub(crate) fn draw(&mut self, below: u64) -> u64
        requires { 0 < below }
        ensures number { self.new.number ≡ after self.old.number }
        ensures drawn { result ≡ drawn self.new.number below }
        ensures within { result < below }
    {
        self.number = self.number.wrapping_mul(MULTIPLIER).wrapping_add(INCREMENT);
        (self.number >> 33) % below
    }
}

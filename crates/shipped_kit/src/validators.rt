//! The two validation functions of which the shipped program gives each application one.

ghost use Rattle.std.specs.Prelude.{◌≡◌, ◌≤◌, ◌^◌, ◌<◌, List, ℕ};
ghost use Rattle.shipped_kit.specs.Validators.{first_byte, last_xor, xor_of};

use tbl_outside::Validator;

/// A validation function whose verdict is 0 where the image's first byte isn't 0, and else -5.
#[derive(Drop)]
pub struct FirstByte {
    asked: u64,
}

impl FirstByte {
    /// It was never asked.
    pub fn make() -> FirstByte
        ensures { result.asked ≡ 0 }
    {
        FirstByte { asked: 0 }
    }
}

impl Validator for FirstByte {
    ghost verdict = { λ _ image. first_byte image };

    ghost asked = { λ it. it.asked };

    fn validate(&mut self, image: &[u8]) -> i32 {
        self.asked += 1;
        match image.first() {
            None | Some(0) => -5,
            Some(_) => 0,
        }
    }
}

/// A validation function whose verdict is 0 where the image's last byte is the exclusive or of all bytes before it, and else -7.
#[derive(Drop)]
pub struct LastXor {
    asked: u64,
}

impl LastXor {
    /// It was never asked.
    pub fn make() -> LastXor
        ensures { result.asked ≡ 0 }
    {
        LastXor { asked: 0 }
    }
}

/// The exclusive or of all these bytes.
fn xor_of(bytes: &[u8]) -> u8
    ensures { result ≡ xor_of bytes.now }
{
    bytes.iter().fold(0, |sum, byte| sum ^ byte)
}

/// The verdict on an image.
fn last_xor(image: &[u8]) -> i32
    ensures { result ≡ last_xor image.now }
{
    let Some((last, before)) = image.split_last() else {
        return 0;
    };
    if *last == xor_of(before) { 0 } else { -7 }
}

impl Validator for LastXor {
    ghost verdict = { λ _ image. last_xor image };

    ghost asked = { λ it. it.asked };

    fn validate(&mut self, image: &[u8]) -> i32 {
        self.asked += 1;
        last_xor(image)
    }
}

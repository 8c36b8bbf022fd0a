//! Reads a number from its one spelling.

ghost use Rattle.std.specs.Prelude.{◌≡◌, ◌≤◌, ◌↔◌, ℕ, Some};
ghost use Rattle.std.specs.Fmt.{decimal};

use itoa::Buffer;
use std::str::from_utf8;

/// The number that these bytes spell in ASCII digits, without a sign and without a leading zero but that of `0` itself; None where
/// they spell none, or one above `most`.
pub fn read_decimal(bytes: &[u8], most: u64) -> Option<u64>
    ensures { (n : ℕ) → (result ≡ Some n) ↔ ((bytes.now ≡ decimal n) × (n ≤ most)) }
{
    let Ok(text) = from_utf8(bytes) else {
        return None;
    };
    let Ok(number) = text.parse::<u64>() else {
        return None;
    };
    if number <= most && Buffer::new().format(number) == text {
        Some(number)
    } else {
        None
    }
}

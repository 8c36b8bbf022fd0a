//! The types that a field of a table can have.

ghost use Rattle.std.specs.Prelude.{◌≡◌, pos};
ghost use Rattle.std.specs.Int.{byte_len};
ghost use Rattle.tbl_maker.specs.Types.{width_of, modulus_of, size_of, sign_letter, width_digits, FindsWidth, FindsSign, FindsNumberType};

/// Whether the numbers of a type can be negative.
#[derive(Clone, Copy, Debug, PartialEq, Eq)]
pub enum Sign {
    /// From 0 on.
    Unsigned,
    /// Two's complement.
    Signed,
}

/// How many bytes a number has, the high byte first.
#[derive(Clone, Copy, Debug, PartialEq, Eq)]
pub enum Width {
    /// One byte.
    One,
    /// Two bytes.
    Two,
    /// Four bytes.
    Four,
}

/// The type of a field.
#[derive(Clone, Copy, Debug, PartialEq, Eq)]
pub enum FieldType {
    /// `u8`, `u16`, `u32`, `i8`, `i16` or `i32`.
    Number {
        /// Whether it can be negative.
        sign: Sign,
        /// How many bytes it has.
        width: Width,
    },
    /// `hex`: bytes, written in hexadecimal digits.
    Hex {
        /// How many bytes there are, 1 to 64.
        length: u8,
    },
}

impl Sign {
    /// The first letter of the type's word.
    pub(crate) fn letter(self) -> u8
        ensures { result ≡ sign_letter self }
    {
        match self {
            Sign::Unsigned => b'u',
            Sign::Signed => b'i',
        }
    }
}

impl Width {
    /// How many bytes there are.
    pub(crate) fn len(self) -> usize
        ensures { result ≡ byte_len (width_of self) }
    {
        match self {
            Width::One => 1,
            Width::Two => 2,
            Width::Four => 4,
        }
    }

    /// How many numbers have this width.
    pub(crate) fn modulus(self) -> i64
        ensures { result ≡ pos (modulus_of self) }
    {
        match self {
            Width::One => 0x100,
            Width::Two => 0x1_0000,
            Width::Four => 0x1_0000_0000,
        }
    }

    /// How many bits it has, as the type's word tells.
    pub(crate) fn digits(self) -> &'static [u8]
        ensures { result.now ≡ width_digits self }
    {
        match self {
            Width::One => b"8",
            Width::Two => b"16",
            Width::Four => b"32",
        }
    }
}

impl FieldType {
    /// How many bytes a field of this type has.
    pub fn size(self) -> usize
        ensures { result ≡ size_of self }
    {
        match self {
            FieldType::Number { width, .. } => width.len(),
            FieldType::Hex { length } => usize::from(length),
        }
    }
}

fn width_in(digits: &[u8]) -> Option<Width>
    ensures { FindsWidth digits.now result }
{
    if digits == b"8".as_slice() {
        Some(Width::One)
    } else if digits == b"16".as_slice() {
        Some(Width::Two)
    } else if digits == b"32".as_slice() {
        Some(Width::Four)
    } else {
        None
    }
}

fn sign_in(letter: u8) -> Option<Sign>
    ensures { FindsSign letter result }
{
    match letter {
        b'u' => Some(Sign::Unsigned),
        b'i' => Some(Sign::Signed),
        _ => None,
    }
}

/// The sign and the width of the type of numbers that has this word.
pub(crate) fn number_type(word: &[u8]) -> Option<(Sign, Width)>
    ensures { FindsNumberType word.now result }
{
    let (letter, digits) = word.split_first()?;
    let sign = sign_in(*letter)?;
    let width = width_in(digits)?;
    Some((sign, width))
}

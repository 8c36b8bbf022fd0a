ghost use Rattle.std.specs.Prelude.{◌≡◌, ◌≤◌, length};
ghost use Rattle.tbl_kinds.specs.Heads as heads;
ghost use Rattle.session_records.specs.Reading.{IsHeadOf, actor_at};

use tbl_kinds::{Actor, u16_at};

/// Kind, actor and length of the body.
pub const HEAD_LEN: usize = 4;

/// The longest body.
pub const BODY_LIMIT: usize = 32_832;

/// What the first four bytes say.
#[derive(Clone, Copy)]
pub struct Head {
    pub kind: u8,
    pub actor: u8,
    /// The length of the body.
    pub len: usize,
}

impl Head {
    /// The head at the front of the bytes.
    pub fn of(bytes: &[u8]) -> Head
        requires { 4 ≤ length bytes.now }
        ensures { IsHeadOf bytes.now result }
    {
        Head {
            kind: bytes[0],
            actor: bytes[1],
            len: usize::from(u16_at(bytes, 2)),
        }
    }

    /// Whether the kind is known, the actor fits it, and the length is one that it allows.
    #[tactic(auto, unfolding(tbl_kinds::specs::Heads::is_good_head))]
    pub fn is_good(self) -> bool
        ensures { result ≡ heads.is_good_head self.kind self.actor self.len }
    {
        let from_ground = self.actor == 0;
        let from_app = 1 <= self.actor && self.actor <= 16;
        match self.kind {
            0x01 => from_ground && self.len <= BODY_LIMIT,
            0x02 => from_ground && 64 <= self.len && self.len <= BODY_LIMIT,
            0x03 => from_ground && self.len == 6,
            0x04 => from_ground && self.len == 1,
            0x10 | 0x30 => from_app && self.len == 20,
            0x11 => from_app && self.len == 23,
            0x12 | 0x1F => from_app && self.len == 40,
            0x13 | 0x16..=0x19 | 0x1B | 0x1D | 0x1E | 0x32 | 0x33 => from_app && self.len == 2,
            0x14 | 0x31 => from_app && 2 <= self.len && self.len <= BODY_LIMIT,
            0x15 => from_app && self.len == 66,
            0x1A => from_app && 6 <= self.len && self.len <= BODY_LIMIT,
            0x1C | 0x20 => from_app && self.len == 10,
            0x21 => from_app && self.len == 0,
            _ => false,
        }
    }
}

/// Who has this number in a head.
pub fn actor_of(number: u8) -> Actor
    ensures { result ≡ actor_at number }
{
    match number {
        0 => Actor::Ground,
        _ => Actor::App(number),
    }
}

/// A request is made in its place: one that a function gives is copied each time.
macro_rules! made {
    ($place:expr, $request:expr) => {{
        *$place = $request;
        true
    }};
}

pub(crate) use made;

//! Turn bytes: which of a block's two places shows.

ghost use Rattle.std.specs.Prelude.{◌≡◌, slice_index};
ghost use Rattle.std.specs.Option.{option_map};
ghost use Rattle.cds_layout.specs.Turns.{byte_of, turn_of, next, is_same, later, shown_by, other, opened_by, number_of};

/// The turn of an open place. Each is followed by the next, and the last by the first.
#[derive(Clone, Copy, PartialEq, Eq)]
pub enum Turn {
    Zero,
    One,
    Two,
}

/// One of a block's two places.
#[derive(Clone, Copy, PartialEq, Eq)]
pub enum Place {
    First,
    Second,
}

/// The turns of a block's two places, none where a place is closed.
#[derive(Clone, Copy)]
pub struct Turns {
    pub first: Option<Turn>,
    pub second: Option<Turn>,
}

/// The byte of an open place with this turn.
pub fn turn_byte(turn: Turn) -> u8
    ensures { result ≡ byte_of turn }
{
    match turn {
        Turn::Zero => 0xA0,
        Turn::One => 0xA1,
        Turn::Two => 0xA2,
    }
}

/// The turn that a byte tells. Any other byte is that of a closed place.
fn turn_of(byte: u8) -> Option<Turn>
    ensures { result ≡ turn_of byte }
{
    match byte {
        0xA0 => Some(Turn::Zero),
        0xA1 => Some(Turn::One),
        0xA2 => Some(Turn::Two),
        _ => None,
    }
}

fn next(turn: Turn) -> Turn
    ensures { result ≡ next turn }
{
    match turn {
        Turn::Zero => Turn::One,
        Turn::One => Turn::Two,
        Turn::Two => Turn::Zero,
    }
}

fn is_same(a: Turn, b: Turn) -> bool
    ensures { result ≡ is_same a b }
{
    match (a, b) {
        (Turn::Zero, Turn::Zero) => true,
        (Turn::One, Turn::One) => true,
        (Turn::Two, Turn::Two) => true,
        _ => false,
    }
}

/// Of two open places the one whose turn comes after the other's, and the first where they have the same.
fn later(first: Turn, second: Turn) -> Place
    ensures { result ≡ later first second }
{
    if is_same(second, next(first)) {
        Place::Second
    } else {
        Place::First
    }
}

impl Turns {
    /// The turns that two turn bytes tell, that of the first place and that of the second.
    pub fn of(first: u8, second: u8) -> Turns
        ensures first { result.first ≡ turn_of first }
        ensures second { result.second ≡ turn_of second }
    {
        Turns {
            first: turn_of(first),
            second: turn_of(second),
        }
    }

    /// The place that shows: the open one where one is, and where both are, the one whose turn comes after the other's; the
    /// first where they have the same. None where both are closed.
    pub fn shown(&self) -> Option<Place>
        ensures { result ≡ shown_by self.now.first self.now.second }
    {
        match (self.first, self.second) {
            (None, None) => None,
            (Some(_), None) => Some(Place::First),
            (None, Some(_)) => Some(Place::Second),
            (Some(first), Some(second)) => Some(later(first, second)),
        }
    }

    /// The place that doesn't show, into which a copy goes, and the first where none shows.
    pub fn hidden(&self) -> Place
        ensures { result ≡ other (shown_by self.now.first self.now.second) }
    {
        match self.shown() {
            None => Place::First,
            Some(Place::First) => Place::Second,
            Some(Place::Second) => Place::First,
        }
    }

    /// The turn with which a copy opens the hidden place: the one after that of the place which shows.
    pub fn opened(&self) -> Turn
        ensures { result ≡ opened_by self.now.first self.now.second }
    {
        match (self.first, self.second) {
            (None, None) => Turn::Zero,
            (Some(first), None) => next(first),
            (None, Some(second)) => next(second),
            (Some(first), Some(second)) => match later(first, second) {
                Place::First => next(first),
                Place::Second => next(second),
            },
        }
    }
}

/// The place of a block that shows, by its two turn bytes: 0 is the first place, 1 the second, and none shows where both are
/// closed. The bytes A0, A1 and A2 are those of an open place with turn 0, 1 and 2, and any other is that of a closed one.
pub fn shown(turns: [u8; 2]) -> Option<u8>
    ensures { result ≡ option_map number_of (shown_by (turn_of (slice_index turns 0)) (turn_of (slice_index turns 1))) }
{
    let [first, second] = turns;
    match Turns::of(first, second).shown()? {
        Place::First => Some(0),
        Place::Second => Some(1),
    }
}

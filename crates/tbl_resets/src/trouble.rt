//! What goes wrong with two banks as one: one of them fails in a write of the session, in its reads, or at the start.

use bank_mirror::Alone;
use cds_layout::BANK_SIZE;
use tbl_fakes::Break;

/// How many reads of the one bank and writes of the other the copy of an opening makes: a piece has 4,096 bytes.
const PIECES: u32 = BANK_SIZE / 4_096;

/// What goes wrong with two banks as one.
#[derive(Clone, Copy)]
pub(crate) enum Trouble {
    /// The first dies in this write of the session, after so many of its bytes.
    FirstDies { number: u32, after: u32 },
    /// The second does.
    SecondDies { number: u32, after: u32 },
    /// The first answers no read once both are opened.
    FirstUnread,
    /// The first doesn't answer at the start, and the second goes on alone.
    NoFirst,
    /// The second doesn't, and the first goes on alone.
    NoSecond,
}

impl Trouble {
    /// Which bank goes on alone if both can't be opened.
    pub(crate) fn alone(self) -> Alone {
        match self {
            Trouble::NoSecond => Alone::First,
            _ => Alone::Second,
        }
    }

    /// After how many bytes of a write a bank dies.
    pub(crate) fn after(self) -> u32 {
        match self {
            Trouble::FirstDies { after, .. } | Trouble::SecondDies { after, .. } => after,
            _ => 0,
        }
    }

    /// The write of the first that fails.
    pub(crate) fn of_first(self) -> Option<Break> {
        match self {
            Trouble::FirstDies { number, after } => Some(dies_in(number, after)),
            _ => None,
        }
    }

    /// The write of the second that fails: the copy of the opening comes before those of the session.
    pub(crate) fn of_second(self) -> Option<Break> {
        match self {
            Trouble::SecondDies { number, after } => {
                Some(dies_in(number.saturating_add(PIECES), after))
            }
            _ => None,
        }
    }

    /// From which read on the first answers none.
    pub(crate) fn first_unread(self) -> Option<u32> {
        match self {
            Trouble::NoFirst => Some(1),
            Trouble::FirstUnread => Some(PIECES + 1),
            _ => None,
        }
    }

    /// From which read on the second answers none.
    pub(crate) fn second_unread(self) -> Option<u32> {
        match self {
            Trouble::NoSecond => Some(1),
            _ => None,
        }
    }
}

/// A write that fails after so many of its bytes.
fn dies_in(number: u32, after: u32) -> Break {
    Break {
        write: number,
        after,
        stop: false,
    }
}

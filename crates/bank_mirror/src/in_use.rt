// Which of the two banks is in.
ghost use Rattle.std.specs.Prelude.{◌≡◌};
ghost use Rattle.bank_mirror.specs.BanksInUse.{in_use_alone};

/// Which of the two banks is in. One that is out is used no more until the next opening.
#[derive(Clone, Copy, Debug, PartialEq, Eq)]
pub enum InUse {
    /// Both are in, and hold the same.
    Both,
    /// The first is out: a write to it failed, and the second's mark says that it is stale.
    FirstOut,
    /// The second is out: a write to it failed or was stopped.
    SecondOut,
    /// A write of the mark broke off, and reading it back failed. The next call reads it first.
    Unread,
}

/// Which of the two banks is the good one. It goes on alone while the other one is out, and an opening copies it over the other.
#[derive(Clone, Copy, Debug, PartialEq, Eq)]
pub enum Alone {
    /// The first, and the second is out.
    First,
    /// The second, and the first is out.
    Second,
}

impl Alone {
    /// Which is in while it goes on alone.
    pub(crate) fn in_use(self) -> InUse
        ensures { result ≡ in_use_alone self }
    {
        match self {
            Alone::First => InUse::SecondOut,
            Alone::Second => InUse::FirstOut,
        }
    }
}

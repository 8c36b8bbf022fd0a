ghost use Rattle.std.specs.Prelude.{◌≡◌, ◌<◌};

/// What is kept of the pins of one row's table: a search for one begins at the first place where one can be.
#[derive(Clone, Copy)]
pub(crate) struct RowPins {
    /// How many handles pin an image of the table.
    pub(crate) count: u16,
    /// No handle before this one pins an image of the table.
    pub(crate) start: u8,
}

impl RowPins {
    ghost use Rattle.access_desc.specs.Counts.{one_more, one_less};

    /// No pin.
    pub(crate) const NONE: RowPins = RowPins { count: 0, start: 0 };

    /// One handle more pins an image of the table.
    pub(crate) fn add(&mut self, handle: u8)
        requires { self.old.count < 65535 }
        ensures { self.new ≡ one_more handle self.old }
    {
        if self.count == 0 || handle < self.start {
            self.start = handle;
        }
        self.count += 1;
    }

    /// One handle less pins an image of the table.
    pub(crate) fn remove(&mut self)
        requires { 0 < self.old.count }
        ensures { self.new ≡ one_less self.old }
    {
        self.count -= 1;
    }
}

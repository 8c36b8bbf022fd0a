ghost use Rattle.std.specs.Prelude.{◌≡◌};

/// What a handle represents.
#[derive(Clone, Copy, PartialEq, Eq)]
pub struct HandleView {
    /// The application that it was given to, from 1 to 16.
    pub app: u8,
    /// The registry row of its table, None if the table is gone.
    pub row: Option<u8>,
    /// Whether it pins an image of its table.
    pub pinned: bool,
    /// Whether the image that it pins is the one before the last.
    pub old: bool,
    /// How many images of its table it knows of.
    pub told: u32,
}

impl HandleView {
    ghost use Rattle.access_desc.specs.Steps.{is_of, pins, pins_old, with_pin, with_no_pin, with_told, after_new_image, after_end};

    /// Whether it is a handle of the table in this row.
    fn is_of(&self, row: u8) -> bool
        ensures { result ≡ is_of row self.now }
    {
        self.row.is_some_and(|r| r == row)
    }

    /// Whether it pins an image of the table in this row.
    pub(crate) fn pins(&self, row: u8) -> bool
        ensures { result ≡ pins row self.now }
    {
        self.is_of(row) && self.pinned
    }

    /// Whether it pins the image before the last of the table in this row.
    pub(crate) fn pins_old(&self, row: u8) -> bool
        ensures { result ≡ pins_old row self.now }
    {
        self.pins(row) && self.old
    }

    /// What it is once it pins the last image of its table.
    pub(crate) fn with_pin(&self) -> HandleView
        ensures { result ≡ with_pin self.now }
    {
        HandleView {
            pinned: true,
            old: false,
            ..*self
        }
    }

    /// What it is once it pins nothing.
    pub(crate) fn with_no_pin(&self) -> HandleView
        ensures { result ≡ with_no_pin self.now }
    {
        HandleView {
            pinned: false,
            old: false,
            ..*self
        }
    }

    /// What it is once it knows of this many images.
    pub(crate) fn with_told(&self, count: u32) -> HandleView
        ensures { result ≡ with_told count self.now }
    {
        HandleView {
            told: count,
            ..*self
        }
    }

    /// What it is after a new image of the table in this row.
    pub(crate) fn after_new_image(&self, row: u8) -> HandleView
        ensures { result ≡ after_new_image row self.now }
    {
        HandleView {
            old: self.old || self.pins(row),
            ..*self
        }
    }

    /// What it is after the end of the table in this row.
    pub(crate) fn after_end(&self, row: u8) -> HandleView
        ensures { result ≡ after_end row self.now }
    {
        if self.is_of(row) {
            HandleView {
                row: None,
                pinned: false,
                old: false,
                ..*self
            }
        } else {
            *self
        }
    }
}

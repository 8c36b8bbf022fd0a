ghost use Rattle.std.specs.Prelude.{◌≡◌, ◌<◌, ◌≤◌, [], ◌∷◌, ◌++◌, length};

use arrayvec::ArrayVec;
use std::marker::Model;

/// A list of at most 128 directory slots of the Critical Data Store.
#[derive(Drop)]
pub struct Slots {
    slots: ArrayVec<u8, 128>,
}

impl Model for Slots {
    ghost use Rattle.std.specs.Prelude.{List, ℕ};

    ghost Value = { List ℕ };

    ghost view = { λ s. s.slots.items };
}

impl Slots {
    /// No slot.
    pub fn make() -> Slots
        ensures { result ≡ [] }
    {
        Slots {
            slots: ArrayVec::new(),
        }
    }

    /// Puts a slot last.
    pub fn add(&mut self, slot: u8)
        requires { length self.old < 128 }
        ensures { self.new ≡ self.old ++ slot ∷ [] }
    {
        self.slots.push(slot);
    }

    /// The slots, in the order in which they were added.
    pub fn list(&self) -> &[u8]
        ensures slots { result.now ≡ self.now }
        ensures within { length result.now ≤ 128 }
    {
        self.slots.as_slice()
    }
}

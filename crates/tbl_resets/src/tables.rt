// The critical tables of a session, and what its requests did to their blocks.
use std::alloc::{AllocError, Global};
use tbl_kinds::{Actor, Bytes, Name16, Name20};

/// How a critical table was registered.
#[derive(Drop)]
pub(crate) struct Registration {
    pub(crate) actor: Actor,
    /// The name under which the application ran.
    pub(crate) app: Name20,
    pub(crate) name: Name16,
    pub(crate) size: u32,
    pub(crate) flags: u16,
    pub(crate) validator: Option<u8>,
}

/// An image that was copied into a table's block.
#[derive(Drop)]
pub(crate) struct Image {
    /// 1 for the first one that the session copies, and 0 for the one that was in the store before.
    pub(crate) number: u32,
    pub(crate) crc: u16,
    pub(crate) bytes: Bytes,
}

/// What a request did to a table or its block.
#[derive(Drop)]
pub(crate) enum Change {
    Registered(Registration),
    Copied(Image),
    /// The block is gone, or was newly made: no image of before may come back.
    Emptied,
}

/// A change, and the place of its request in the session, from 0.
#[derive(Drop)]
pub(crate) struct Event {
    pub(crate) place: usize,
    pub(crate) change: Change,
}

/// A critical table: its full name, and what the session did to it, in order.
#[derive(Drop)]
pub(crate) struct Table {
    pub(crate) name: String,
    pub(crate) events: Vec<Event>,
    /// The image that the store had as the session began.
    pub(crate) stored: Option<Image>,
}

/// What came back in a table, registered again after a reset.
#[derive(Clone, Copy, PartialEq)]
pub(crate) enum Back {
    /// No image.
    None,
    /// The registration was refused, or made no critical table, with this status.
    Refused { status: u32 },
    /// The last image whose copy was completed.
    Completed { number: u32, crc: u16 },
    /// The image whose copy broke off.
    Broken { number: u32, crc: u16 },
    /// Other bytes than those of both.
    Mixed { crc: u16 },
}

impl Table {
    pub(crate) fn make(alloc: Global, name: String) -> Table {
        Table {
            name,
            events: Vec::new(alloc),
            stored: None,
        }
    }

    /// Adds a change that the request at a place made.
    pub(crate) fn add(&mut self, place: usize, change: Change) -> Result<(), AllocError> {
        self.events.push(Event { place, change })?;
        Ok(())
    }

    /// How many images of it were copied.
    pub(crate) fn image_count(&self) -> u32 {
        let mut count = 0u32;
        for event in &self.events {
            if let Change::Copied(_) = &event.change {
                count = count.saturating_add(1);
            }
        }
        count
    }

    /// The last registration before so many requests had come.
    fn last_registration(&self, played: usize) -> Option<&Registration> {
        for event in self.events.iter().rev() {
            if let Change::Registered(registration) = &event.change {
                if event.place < played {
                    return Some(registration);
                }
            }
        }
        None
    }

    fn first_registration(&self) -> Option<&Registration> {
        for event in &self.events {
            if let Change::Registered(registration) = &event.change {
                return Some(registration);
            }
        }
        None
    }

    /// The registration that was in force when so many requests had come; the first one if none had come before.
    pub(crate) fn registration(&self, played: usize) -> Option<&Registration> {
        match self.last_registration(played) {
            Some(registration) => Some(registration),
            None => self.first_registration(),
        }
    }

    /// The last image whose copy was completed before the last of so many requests, if its block still had it then.
    pub(crate) fn completed(&self, played: usize) -> Option<&Image> {
        for event in self.events.iter().rev() {
            if event.place.saturating_add(1) < played {
                match &event.change {
                    Change::Registered(_) => (),
                    Change::Copied(image) => return Some(image),
                    Change::Emptied => return None,
                }
            }
        }
        self.stored.as_ref()
    }

    /// The image that the last of so many requests copies.
    pub(crate) fn under_way(&self, played: usize) -> Option<&Image> {
        for event in &self.events {
            if let Change::Copied(image) = &event.change {
                if event.place.saturating_add(1) == played {
                    return Some(image);
                }
            }
        }
        None
    }

    /// Which image these bytes are that came back after a reset in the last of so many requests.
    pub(crate) fn judge(&self, played: usize, bytes: &[u8], crc: u16) -> Back {
        if let Some(image) = self.completed(played) {
            if image.bytes.bytes() == bytes {
                return Back::Completed {
                    number: image.number,
                    crc,
                };
            }
        }
        if let Some(image) = self.under_way(played) {
            if image.bytes.bytes() == bytes {
                return Back::Broken {
                    number: image.number,
                    crc,
                };
            }
        }
        Back::Mixed { crc }
    }
}

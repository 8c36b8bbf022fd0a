use std::alloc::{AllocError, Global};

/// Where a number stands that counts up.
#[derive(Clone, Copy)]
struct Place {
    from: usize,
    to: usize,
}

/// Bytes that can be repeated, with numbers in them that are one higher each time.
#[derive(Drop)]
pub(crate) struct Piece {
    bytes: Vec<u8>,
    counted: Vec<Place>,
}

/// Adds one to a number that has the high byte first. After its highest value comes 0.
fn count_up(number: &mut [u8]) {
    for byte in number.iter_mut().rev() {
        *byte = byte.wrapping_add(1);
        if *byte != 0 {
            return;
        }
    }
}

impl Piece {
    pub(crate) fn make(alloc: Global) -> Piece {
        Piece {
            bytes: Vec::new(alloc),
            counted: Vec::new(alloc),
        }
    }

    /// Puts bytes so many times after those that are there.
    pub(crate) fn append(&mut self, bytes: &[u8], count: u32) -> Result<(), AllocError> {
        for _ in 0..count {
            self.bytes.extend_from_slice(bytes)?;
        }
        Ok(())
    }

    pub(crate) fn append_counted(&mut self, number: &[u8]) -> Result<(), AllocError> {
        let from = self.bytes.len();
        self.bytes.extend_from_slice(number)?;
        let to = self.bytes.len();
        self.counted.push(Place { from, to })?;
        Ok(())
    }

    fn count_all_up(&mut self) {
        for place in &self.counted {
            if let Some(number) = self.bytes.as_mut_slice().get_mut(place.from..place.to) {
                count_up(number);
            }
        }
    }

    /// Puts the bytes so many times after others.
    pub(crate) fn repeat(&mut self, count: u32, into: &mut Vec<u8>) -> Result<(), AllocError> {
        for _ in 0..count {
            into.extend_from_slice(&self.bytes)?;
            self.count_all_up();
        }
        Ok(())
    }
}

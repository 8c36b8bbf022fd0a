ghost use Rattle.std.specs.Prelude.{◌≡◌, length, IfOk};

use crate::fault::CaseFault;
use std::alloc::Global;

/// The decimal number that is a cell's whole text.
pub fn number_in(cell: &str) -> Result<u32, CaseFault> {
    match cell.parse::<u32>() {
        Ok(number) => Ok(number),
        Err(_) => Err(CaseFault::Unreadable),
    }
}

/// The decimal numbers of a cell, which have spaces between them.
pub fn numbers_in(alloc: Global, cell: &str) -> Result<Vec<u32>, CaseFault> {
    let mut numbers = Vec::new(alloc);
    for word in cell.split_ascii_whitespace() {
        numbers.push(number_in(word)?)?;
    }
    Ok(numbers)
}

/// A number that fits in one byte.
pub fn byte(number: u32) -> Result<u8, CaseFault> {
    match u8::try_from(number) {
        Ok(byte) => Ok(byte),
        Err(_) => Err(CaseFault::Unreadable),
    }
}

/// A number that fits in two bytes.
pub fn short(number: u32) -> Result<u16, CaseFault> {
    match u16::try_from(number) {
        Ok(short) => Ok(short),
        Err(_) => Err(CaseFault::Unreadable),
    }
}

/// How many bytes there are, as a number of four bytes.
pub fn count_of(bytes: &[u8]) -> Result<u32, CaseFault>
    ensures { IfOk result (λ count. count ≡ length bytes.now) }
{
    match u32::try_from(bytes.len()) {
        Ok(count) => Ok(count),
        Err(_) => Err(CaseFault::Unreadable),
    }
}

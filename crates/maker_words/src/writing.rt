//! The statuses, and what is written with them.

ghost use Rattle.std.specs.Prelude.{◌≡◌, ◌⊎◌};
ghost use Rattle.maker_words.specs.Answers.{PutsBytes, took};
ghost use Rattle.maker_words.specs.Inputs.{status_of};

use crate::inputs::InputFault;
use tbl_outside::{Failed, Sink};

/// The file was made, or described.
pub(crate) const DONE: u8 = 0;

/// Memory ran out.
pub(crate) const NO_MEMORY: u8 = 1;

/// A read failed.
const SOURCE_FAILED: u8 = 3;

/// A write failed.
const SINK_FAILED: u8 = 4;

/// The text is no description.
pub(crate) const BAD_LINE: u8 = 9;

/// The input is no table file that can be described.
pub(crate) const NO_FILE: u8 = 10;

/// The shape has another length than the file's image.
pub(crate) const OTHER_LENGTH: u8 = 11;

/// The input is too long.
const TOO_LONG: u8 = 12;

/// The status where an input wasn't read to its end.
pub(crate) fn status_of(fault: InputFault) -> u8
    ensures { result ≡ status_of fault }
{
    match fault {
        InputFault::TooLong => TOO_LONG,
        InputFault::Failed => SOURCE_FAILED,
        InputFault::Memory => NO_MEMORY,
    }
}

/// Writes the bytes whole, and answers this status; or that the sink failed.
pub(crate) fn write_with<K: Sink>(answer: u8, bytes: &[u8], sink: &mut K) -> u8
    requires { (answer ≡ 0) ⊎ (answer ≡ 9) }
    ensures { PutsBytes answer bytes.now result (took K.Sink sink.old sink.new) }
{
    match sink.write(bytes) {
        Ok(()) => answer,
        Err(Failed) => SINK_FAILED,
    }
}

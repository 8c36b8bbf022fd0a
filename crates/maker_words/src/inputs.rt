//! Reads an input to its end, as far as it may go.

ghost use Rattle.std.specs.Prelude.{◌+◌, ◌<◌, ◌≤◌, length};
ghost use Rattle.maker_words.specs.Inputs.{most_input, IsRoom, KeepsAll, TakesInput, TakesPiece};

use std::alloc::Global;
use tbl_kinds::{Bytes, Memory};
use tbl_outside::{Failed, Source};

/// The most bytes of an input. One more is read, to know that it has more.
const MOST_INPUT: usize = 1_048_576;

/// How many bytes are asked for at a time.
const PIECE_LENGTH: usize = 4096;

/// Why an input wasn't read to its end.
#[derive(Clone, Copy, PartialEq, Eq)]
pub(crate) enum InputFault {
    /// It has more bytes than an input may have.
    TooLong,
    /// A read failed.
    Failed,
    /// Memory ran out.
    Memory,
}

impl From<Memory> for InputFault {
    ghost use Rattle.std.specs.Prelude.{◌≡◌};
    ghost use Rattle.maker_words.specs.declared.inputs.InputFault.TheVariants.{Memory};

    ghost from_gives = { λ _ e. e ≡ Memory };

    fn from(_fault: Memory) -> InputFault {
        InputFault::Memory
    }
}

/// Keeps a piece, where it isn't too much.
fn keep_piece(input: &mut Bytes, piece: &[u8]) -> Result<(), InputFault>
    requires { length input.old.list + length piece.now ≤ most_input + 1 }
    ensures { KeepsAll result input.old.list input.new.list piece.now }
{
    if input.bytes().len() + piece.len() > MOST_INPUT {
        return Err(InputFault::TooLong);
    }
    input.reserve(piece.len())?;
    input.append(piece);
    Ok(())
}

/// Reads a piece more; false at the end of the input.
fn read_piece<S: Source>(
    input: &mut Bytes,
    piece: &mut [u8],
    source: &mut S,
) -> Result<bool, InputFault>
    requires some { 0 < length piece.old }
    requires few { length input.old.list + length piece.old ≤ most_input + 1 }
    requires more { length input.old.list ≤ most_input }
    ensures { TakesPiece S.Source source.old source.new input.old.list input.new.list result }
{
    match source.read(piece) {
        Err(Failed) => Err(InputFault::Failed),
        Ok(0) => Ok(false),
        Ok(count) => match keep_piece(input, &piece[..count]) {
            Ok(()) => Ok(true),
            Err(fault) => Err(fault),
        },
    }
}

/// How many bytes are asked for next.
fn room_after(len: usize) -> usize
    requires { len ≤ most_input }
    ensures { IsRoom len result }
{
    (MOST_INPUT + 1 - len).min(PIECE_LENGTH)
}

/// Reads an input to its end.
pub(crate) fn read_input<S: Source>(alloc: Global, source: &mut S) -> Result<Bytes, InputFault>
    ensures { TakesInput S.Source source.old source.new result }
{
    let mut input = Bytes::make(alloc, 0)?;
    let mut piece = [0u8; PIECE_LENGTH];
    'reads: loop {
        let room = room_after(input.bytes().len());
        match read_piece(&mut input, &mut piece[..room], source) {
            Ok(true) => {}
            Ok(false) => return Ok(input),
            Err(fault) => return Err(fault),
        }
    }
}

//! Reads the input piece by piece, and feeds it to the stream.

ghost use Rattle.std.specs.Prelude.{◌≡◌, Some, length};
ghost use Rattle.tbl_session.specs.Inputs.{piece_limit};
ghost use Rattle.tbl_stream.specs.Reading.{IsOpen, Reads, ReadsFrom, reading};

use crate::stream::{Fed, Stream};
use tbl_outside::{Bank, Failed, Sink, Source, Validator};

/// How many bytes are asked for at a time.
pub const PIECE_LENGTH: usize = 4096;

/// Reads one piece of the input and feeds it; None if the stream goes on, and else whether a read failed.
fn read_piece<B: Bank, C: Validator, S: Source, K: Sink>(
    stream: &mut Stream<B, C>,
    piece: &mut [u8],
    source: &mut S,
    sink: &mut K,
) -> Option<bool>
    requires is_open { IsOpen stream.old }
    requires room { length piece.old ≡ piece_limit }
    ensures room { length piece.new ≡ piece_limit }
    ensures reads { Reads B.Bank C.verdict result (reading S.Source K.Sink stream.old source.old sink.old) (reading S.Source K.Sink stream.new source.new sink.new) }
    ensures source { ReadsFrom S.Source result source.old source.new }
{
    match source.read(piece) {
        Err(Failed) => Some(true),
        Ok(count) => {
            if count == 0 {
                return Some(false);
            }
            match stream.feed(&piece[..count], sink) {
                Fed::More => None,
                Fed::Over | Fed::Memory => Some(false),
            }
        }
    }
}

/// Reads the input to its end, or to what ends the stream before, and answers whether a read failed. After 2^64 - 1 reads it ends too,
/// which takes more than half a million years at a million reads a second.
pub(crate) fn read_all<B: Bank, C: Validator, S: Source, K: Sink>(
    stream: &mut Stream<B, C>,
    source: &mut S,
    sink: &mut K,
) -> bool
    requires { IsOpen stream.old }
    ensures reads { Reads B.Bank C.verdict (Some result) (reading S.Source K.Sink stream.old source.old sink.old) (reading S.Source K.Sink stream.new source.new sink.new) }
    ensures source { ReadsFrom S.Source (Some result) source.old source.new }
{
    let mut piece = [0u8; PIECE_LENGTH];
    'reads: for _reads in 0..u64::MAX {
        if let Some(read_failed) = read_piece(stream, &mut piece, source, sink) {
            return read_failed;
        }
    }
    stream.stop();
    false
}

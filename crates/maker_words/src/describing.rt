//! The word `describe`.

ghost use Rattle.maker_words.specs.Answers.{ComesOfFile, DescribesInput, PutsFor, gave, took};

use crate::inputs::read_input;
use crate::writing::{DONE, NO_FILE, NO_MEMORY, OTHER_LENGTH, status_of, write_with};
use std::alloc::Global;
use tbl_maker::{DescribeFault, Shape, describe_file};
use tbl_outside::{Sink, Source};

/// Writes what comes of a file, and answers the status.
fn describe_bytes<K: Sink>(alloc: Global, shape: &Shape, file: &[u8], sink: &mut K) -> u8
    ensures { PutsFor (ComesOfFile shape.now file.now) result (took K.Sink sink.old sink.new) }
{
    match describe_file(alloc, shape, file) {
        Ok(text) => write_with(DONE, text.bytes(), sink),
        Err(DescribeFault::File) => NO_FILE,
        Err(DescribeFault::Length { .. }) => OTHER_LENGTH,
        Err(DescribeFault::Memory) => NO_MEMORY,
    }
}

/// Reads a table file from the source, 1,048,576 bytes at most, and writes its description by a shape to the sink. The status:
/// 0, it was written; 10, the input is no table file that can be described; 11, the shape has another length than its image;
/// 12, the input is too long; 3, a read failed; 4, a write failed; 1, memory ran out. After 4 a front of the description was
/// written, after all others but 0 nothing.
pub fn describe_input<S: Source, K: Sink>(
    alloc: Global,
    shape: &Shape,
    source: &mut S,
    sink: &mut K,
) -> u8
    // 0 comes only of a file that the shape describes, and then the sink took the text of the one description of this shape that tells
    // what the file tells. It comes always of such a file, unless something outside failed or memory ran out.
    ensures { DescribesInput shape.now result (gave S.Source source.old source.new) (took K.Sink sink.old sink.new) }
{
    match read_input(alloc, source) {
        Ok(file) => describe_bytes(alloc, shape, file.bytes(), sink),
        Err(fault) => status_of(fault),
    }
}

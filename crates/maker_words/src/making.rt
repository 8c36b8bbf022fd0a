//! The word `make`.

ghost use Rattle.std.specs.Prelude.{◌≡◌, IfOk};
ghost use Rattle.maker_words.specs.Answers.{ComesOfText, MakesInput, PutsFor, PutsLine, bad_line, gave, took};

use crate::inputs::read_input;
use crate::writing::{BAD_LINE, DONE, NO_MEMORY, status_of, write_with};
use plain_text::{append_decimal, append_text};
use std::alloc::Global;
use tbl_kinds::{Bytes, Memory};
use tbl_maker::{MakeFault, make_file};
use tbl_outside::{Sink, Source};

/// The line that tells of a bad one.
fn bad_line(alloc: Global, number: u32) -> Result<Bytes, Memory>
    ensures { IfOk result (λ line. line.list ≡ bad_line number) }
{
    let mut line = Bytes::make(alloc, 0)?;
    append_text(&mut line, b"line ")?;
    append_decimal(&mut line, u64::from(number))?;
    append_text(&mut line, b"\n")?;
    Ok(line)
}

/// Writes the number of a bad line, and answers the status.
fn tell_bad_line<K: Sink>(alloc: Global, number: u32, sink: &mut K) -> u8
    ensures { PutsLine number result (took K.Sink sink.old sink.new) }
{
    match bad_line(alloc, number) {
        Ok(line) => write_with(BAD_LINE, line.bytes(), sink),
        Err(Memory) => NO_MEMORY,
    }
}

/// Writes what comes of a text, and answers the status.
fn make_text<K: Sink>(alloc: Global, text: &[u8], sink: &mut K) -> u8
    ensures { PutsFor (ComesOfText text.now) result (took K.Sink sink.old sink.new) }
{
    match make_file(alloc, text) {
        Ok(file) => write_with(DONE, file.bytes(), sink),
        Err(MakeFault::Line { number }) => tell_bad_line(alloc, number, sink),
        Err(MakeFault::Memory) => NO_MEMORY,
    }
}

/// Reads a description from the source, 1,048,576 bytes at most, and writes its table file to the sink. The status: 0, it was
/// written; 9, the text is no description, and `line N` was written, its first bad line; 12, the input is too long; 3, a read
/// failed; 4, a write failed; 1, memory ran out. After 1, 3 and 12 nothing was written, after 4 a front of what 0 or 9 writes.
pub fn make_input<S: Source, K: Sink>(alloc: Global, source: &mut S, sink: &mut K) -> u8
    // 0 comes only of a description, and then the sink took its file. It comes always of a description, unless something outside failed or
    // memory ran out.
    ensures { MakesInput result (gave S.Source source.old source.new) (took K.Sink sink.old sink.new) }
{
    match read_input(alloc, source) {
        Ok(text) => make_text(alloc, text.bytes(), sink),
        Err(fault) => status_of(fault),
    }
}

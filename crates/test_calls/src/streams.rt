//! Calls of sources and sinks.

use crate::words::{Words, kept, no_memory, text};
use std::alloc::Global;
use std::io;
use tbl_fakes::{CalmSink, CalmSource, MemSink, MemSource};
use tbl_kinds::Memory;
use tbl_outside::{Sink, Source};

/// What tells more than its calls answer.
pub(crate) trait Shown {
    /// Tells it after this line.
    fn show<R: Print>(&self, rt: &R, line: &str) -> io::Result<()>;
}

impl Shown for MemSource {
    fn show<R: Print>(&self, rt: &R, line: &str) -> io::Result<()> {
        println!(rt;
            "{line} -> {} faults {}",
            text(self.left_bytes()),
            self.faults()
        )
    }
}

impl Shown for CalmSource {
    fn show<R: Print>(&self, rt: &R, line: &str) -> io::Result<()> {
        println!(rt; "{line} -> {}", text(self.left_bytes()))
    }
}

impl Shown for MemSink {
    fn show<R: Print>(&self, rt: &R, line: &str) -> io::Result<()> {
        println!(rt; "{line} -> {} faults {}", text(self.taken()), self.faults())
    }
}

impl Shown for CalmSink {
    fn show<R: Print>(&self, rt: &R, line: &str) -> io::Result<()> {
        println!(rt; "{line} -> nothing")
    }
}

/// `read N`: reads into a piece of so many dots, and tells how many bytes came, and the piece.
fn read_from<R: Print, S: Source>(
    rt: &R,
    source: &mut S,
    words: &mut Words,
    line: &str,
) -> io::Result<()> {
    let mut dots = [b'.'; 8];
    let len = (words.number() as usize).min(8);
    let piece = &mut dots[..len];
    let came = source.read(piece);
    println!(rt; "{line} -> {came:?} {}", text(piece))
}

/// Calls of a source: `read N`, or `left`: what is left, and how often a read failed.
fn play_source<R: Print, S: Source + Shown>(rt: &R, source: &mut S, calls: &str) -> io::Result<()> {
    for line in calls.lines() {
        let mut words = Words::of(line);
        if words.next() == "read" {
            read_from(rt, source, &mut words, line)?;
        } else {
            source.show(rt, line)?;
        }
    }
    Ok(())
}

/// `write BYTES`: writes them, and tells whether they were taken.
fn write_to<R: Print, K: Sink>(
    rt: &R,
    sink: &mut K,
    words: &mut Words,
    line: &str,
) -> io::Result<()> {
    let came = sink.write(words.letters());
    println!(rt; "{line} -> {came:?}")
}

/// Calls of a sink: `write BYTES`, or `taken`: what was taken, and how often a write failed.
fn play_sink<R: Print, K: Sink + Shown>(rt: &R, sink: &mut K, calls: &str) -> io::Result<()> {
    for line in calls.lines() {
        let mut words = Words::of(line);
        if words.next() == "write" {
            write_to(rt, sink, &mut words, line)?;
        } else {
            sink.show(rt, line)?;
        }
    }
    Ok(())
}

/// `calm-sink`
pub(crate) fn calm_sink<R: Print>(rt: &R, calls: &str) -> io::Result<()> {
    play_sink(rt, &mut CalmSink::make(), calls)
}

/// A source, by the words that state it.
fn source_of(alloc: Global, words: &mut Words) -> Result<MemSource, Memory> {
    let bytes = kept(alloc, words.letters())?;
    MemSource::make(alloc, bytes, &[words.number(), 9])
}

/// `source BYTES FAILS`: FAILS is the number of a read that fails, as the ninth does.
pub(crate) fn source<R: Print + AllocGlobal>(
    rt: &R,
    words: &mut Words,
    calls: &str,
) -> io::Result<()> {
    match source_of(rt.alloc(), words) {
        Ok(mut source) => play_source(rt, &mut source, calls),
        Err(_) => no_memory(rt),
    }
}

/// `calm-source BYTES`
pub(crate) fn calm_source<R: Print + AllocGlobal>(
    rt: &R,
    words: &mut Words,
    calls: &str,
) -> io::Result<()> {
    match kept(rt.alloc(), words.letters()) {
        Ok(bytes) => play_source(rt, &mut CalmSource::make(bytes), calls),
        Err(_) => no_memory(rt),
    }
}

/// `sink ROOM FAILS`: FAILS is the number of the write that fails.
pub(crate) fn sink<R: Print + AllocGlobal>(
    rt: &R,
    words: &mut Words,
    calls: &str,
) -> io::Result<()> {
    let room = words.number();
    match MemSink::make(rt.alloc(), room, &[words.number()]) {
        Ok(mut sink) => play_sink(rt, &mut sink, calls),
        Err(_) => no_memory(rt),
    }
}

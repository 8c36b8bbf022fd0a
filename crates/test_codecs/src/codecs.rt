//! The rows of the table.

use crate::drawer::{empty_drawer, name_in, tell_get, tell_list, tell_put, try_undone};
use crate::drills::try_drill;
use crate::files::{tell_admitted, tell_file, tell_header, try_written_cells};
use crate::line::Line;
use crate::names::{tell_actors, tell_name};
use crate::packets::{tell_command, tell_packet, try_written};
use crate::records::{tell_end, tell_entry, tell_record};
use crate::telemetry::{
    tell_event, tell_housekeeping, tell_registry, try_event, try_notice, try_telemetry,
};
use file_drawer::{Contents, Drawer};
use std::alloc::Global;
use test_tables::{CaseFault, Cases, Pieces, kept, number_in, numbers_in};

/// Tries rows, over one drawer.
#[derive(Drop)]
pub(crate) struct Codecs {
    alloc: Global,
    drawer: Drawer,
    line: Line,
}

/// A packet with these numbers and this body is written.
fn try_packet_of(
    alloc: Global,
    writer: &str,
    numbers: &[u32],
    body: &[u8],
    wanted: &[u8],
) -> Result<(), CaseFault> {
    match (writer, numbers) {
        ("write-command", [id, count, code]) => {
            try_written(alloc, [*id, *count, *code], body, wanted)
        }
        ("write-telemetry", [id, count, seconds, sub]) => {
            try_telemetry(alloc, *id, [*count, *seconds, *sub], body, wanted)
        }
        ("write-event", [count, seconds, sub, number, status, row, detail]) => {
            let fields = [*number, *status, *row, *detail];
            try_event(alloc, [*count, *seconds, *sub], fields, wanted)
        }
        ("write-notice", [count, msg, code, parameter]) => {
            try_notice(alloc, [*count, *msg, *code, *parameter], wanted)
        }
        _ => Err(CaseFault::Unreadable),
    }
}

impl Codecs {
    pub(crate) fn make(alloc: Global) -> Result<Codecs, CaseFault> {
        Ok(Codecs {
            alloc,
            drawer: empty_drawer(alloc)?,
            line: Line::make(alloc),
        })
    }

    /// Tells what bytes are read as, by a reader that needs no memory.
    fn tell_plain(&mut self, reader: &str, bytes: &[u8]) -> Result<(), CaseFault> {
        match reader {
            "packet" => tell_packet(&mut self.line, bytes),
            "command" => tell_command(&mut self.line, bytes),
            "file" => tell_file(&mut self.line, bytes),
            "entry" => tell_entry(&mut self.line, bytes),
            "end" => tell_end(&mut self.line, bytes),
            "name" => tell_name(&mut self.line, bytes),
            _ => return Err(CaseFault::Unreadable),
        }
        Ok(())
    }

    /// Tells what bytes are read as.
    fn tell(&mut self, reader: &str, bytes: &[u8]) -> Result<(), CaseFault> {
        match reader {
            "header" => tell_header(self.alloc, &mut self.line, bytes),
            "event" => tell_event(self.alloc, &mut self.line, bytes),
            "housekeeping" => tell_housekeeping(self.alloc, &mut self.line, bytes),
            "registry" => tell_registry(self.alloc, &mut self.line, bytes),
            "record" => tell_record(self.alloc, &mut self.line, bytes),
            "get" => tell_get(&mut self.line, &self.drawer, bytes),
            _ => self.tell_plain(reader, bytes),
        }
    }

    fn try_bytes(
        &mut self,
        pieces: &Pieces,
        reader: &str,
        bytes: &str,
        wanted: &str,
    ) -> Result<(), CaseFault> {
        let bytes = pieces.bytes(bytes)?;
        self.tell(reader, &bytes)?;
        self.line.same(self.alloc, wanted)
    }

    /// A table file is read under lists of spacecraft and processors.
    fn try_admitted(
        &mut self,
        pieces: &Pieces,
        lists: [&str; 2],
        bytes: &str,
        wanted: &str,
    ) -> Result<(), CaseFault> {
        let bytes = pieces.bytes(bytes)?;
        tell_admitted(self.alloc, &mut self.line, lists, &bytes)?;
        self.line.same(self.alloc, wanted)
    }

    fn try_undone(&mut self, pieces: &Pieces, name: &str, bytes: &str) -> Result<(), CaseFault> {
        let name = pieces.bytes(name)?;
        let contents = pieces.bytes(bytes)?;
        try_undone(self.alloc, &mut self.drawer, &name, &contents)
    }

    fn try_put(
        &mut self,
        pieces: &Pieces,
        name: &str,
        bytes: &str,
        wanted: &str,
    ) -> Result<(), CaseFault> {
        let name = name_in(&pieces.bytes(name)?)?;
        let file = Contents::of(kept(self.alloc, &pieces.bytes(bytes)?)?);
        tell_put(&mut self.line, &self.drawer.put(&name, file));
        self.line.same(self.alloc, wanted)
    }

    /// A row whose middle cell isn't bytes.
    fn try_word(&mut self, called: &str, given: &str, wanted: &str) -> Result<(), CaseFault> {
        if called == "list" {
            tell_list(&mut self.line, &self.drawer, number_in(given)?);
        } else {
            tell_actors(self.alloc, &mut self.line, given)?;
        }
        self.line.same(self.alloc, wanted)
    }

    fn try_writer(
        &self,
        pieces: &Pieces,
        writer: &str,
        given: [&str; 2],
        wanted: &str,
    ) -> Result<(), CaseFault> {
        let [numbers, body] = given;
        let numbers = numbers_in(self.alloc, numbers)?;
        let body = pieces.bytes(body)?;
        let wanted = pieces.bytes(wanted)?;
        try_packet_of(self.alloc, writer, &numbers, &body, &wanted)
    }

    /// A row that has one cell between what is called and what has to come.
    fn try_one(
        &mut self,
        pieces: &Pieces,
        called: &str,
        given: &str,
        wanted: &str,
    ) -> Result<(), CaseFault> {
        match called {
            "list" | "actors" => self.try_word(called, given, wanted),
            "drill" => try_drill(self.alloc, given, &pieces.bytes(wanted)?),
            "undone" => self.try_undone(pieces, given, wanted),
            _ => self.try_bytes(pieces, called, given, wanted),
        }
    }

    fn try_cells(&mut self, pieces: &Pieces, cells: &[&str]) -> Result<(), CaseFault> {
        match cells {
            ["clear", _] => {
                self.drawer.clear();
                Ok(())
            }
            [called, given, wanted] => self.try_one(pieces, called, given, wanted),
            ["put", name, bytes, wanted] => self.try_put(pieces, name, bytes, wanted),
            [writer, numbers, body, wanted] => {
                self.try_writer(pieces, writer, [numbers, body], wanted)
            }
            ["admitted", spacecraft, processor, bytes, wanted] => {
                self.try_admitted(pieces, [spacecraft, processor], bytes, wanted)
            }
            ["write-file", header, offset, name, image, wanted] => {
                try_written_cells(self.alloc, pieces, [header, offset, name, image], wanted)
            }
            _ => Err(CaseFault::Unreadable),
        }
    }
}

impl Cases for Codecs {
    /// The first cell of a row names what is called, and the last one states what comes of it.
    fn try_row(&mut self, pieces: &Pieces, cells: &[&str]) -> Result<u32, CaseFault> {
        self.line.clear();
        self.try_cells(pieces, cells)?;
        Ok(1)
    }
}

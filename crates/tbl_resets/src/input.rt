// The session, as it comes from standard input.
use session_records::{Next, next_record};
use std::alloc::Global;
use tbl_kinds::{Memory, Request};
use tbl_outside::{Failed, Source};

/// The most records of a session.
const MOST_RECORDS: u32 = 32_768;

/// How many bytes a read asks for.
const PIECE: usize = 4_096;

/// How an input ended.
#[derive(Clone, Copy)]
pub(crate) enum End {
    /// After its last record.
    Whole,
    /// A read failed.
    ReadFailed,
    /// In a record that is bad or cut short.
    BadRecord,
    /// It goes on after as many records as a session may have.
    TooLong,
}

/// What was read of an input: the whole records at its front, what comes after them, and how it ended.
#[derive(Drop)]
pub(crate) struct Session {
    pub(crate) bytes: Vec<u8>,
    /// How many of the bytes are whole records.
    whole: usize,
    pub(crate) count: u32,
    pub(crate) end: End,
}

impl Session {
    /// Counts what comes after the whole records, if it is one more. None if it is no part of a record.
    fn count(&mut self, next: &Next) -> Option<bool> {
        match next {
            Next::Item { used, .. } => {
                self.whole = self.whole.saturating_add(*used);
                self.count = self.count.saturating_add(1);
                Some(true)
            }
            Next::Bad => None,
            Next::Short | Next::End => Some(false),
        }
    }

    /// Takes the next record, if there is a whole one. None if the bytes after the records are no part of one, or if no further record is
    /// taken.
    fn take_record(&mut self, alloc: Global) -> Result<Option<bool>, Memory> {
        let Some(rest) = self.bytes.get(self.whole..) else {
            return Ok(None);
        };
        if self.count >= MOST_RECORDS && !rest.is_empty() {
            return Ok(None);
        }
        let mut request = Request::Exit;
        let next = next_record(alloc, rest, &mut request)?;
        Ok(self.count(&next))
    }

    /// Takes all whole records that there are. The answer is whether more bytes may bring more records.
    fn take_records(&mut self, alloc: Global) -> Result<bool, Memory> {
        for _ in 0..=self.bytes.len() {
            match self.take_record(alloc)? {
                Some(true) => (),
                Some(false) => return Ok(true),
                None => return Ok(false),
            }
        }
        Ok(true)
    }

    /// Takes down how the session ended, if the input ended so.
    fn close(&mut self, end: End) {
        self.end = match end {
            End::Whole if self.whole < self.bytes.len() => End::BadRecord,
            End::BadRecord if self.count >= MOST_RECORDS => End::TooLong,
            _ => end,
        };
    }
}

/// Reads once, and takes the records that came. The answer is how the input ended, or none if it goes on.
fn read_on<S: Source>(
    alloc: Global,
    source: &mut S,
    piece: &mut [u8; PIECE],
    session: &mut Session,
) -> Result<Option<End>, Memory> {
    match source.read(piece.as_mut_slice()) {
        Ok(0) => return Ok(Some(End::Whole)),
        Ok(count) => session.bytes.extend_from_slice(&piece[..count])?,
        Err(Failed) => return Ok(Some(End::ReadFailed)),
    }
    if session.take_records(alloc)? {
        Ok(None)
    } else {
        Ok(Some(End::BadRecord))
    }
}

/// Reads to the end of the input, and says how it ended.
fn read_all<S: Source>(
    alloc: Global,
    source: &mut S,
    session: &mut Session,
) -> Result<End, Memory> {
    let mut piece = [0; PIECE];
    for _ in 0..u64::MAX {
        if let Some(end) = read_on(alloc, source, &mut piece, session)? {
            return Ok(end);
        }
    }
    Ok(End::Whole)
}

/// Reads a session to its end.
pub(crate) fn read_session<S: Source>(alloc: Global, source: &mut S) -> Result<Session, Memory> {
    let mut session = Session {
        bytes: Vec::new(alloc),
        whole: 0,
        count: 0,
        end: End::Whole,
    };
    let end = read_all(alloc, source, &mut session)?;
    session.close(end);
    Ok(session)
}

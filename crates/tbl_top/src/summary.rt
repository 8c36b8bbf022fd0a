//! The line that sums a session up.

ghost use Rattle.std.specs.Prelude.{◌≡◌, ◌++◌, count_by, IfOk, OnOk};
ghost use Rattle.tbl_top.specs.Drilling.{counted, has_image, is_of, summary, went_well};

use plain_text::{append_decimal, append_text};
use std::alloc::Global;
use tbl_kinds::{Bytes, Entry, Memory, Request, Status};

/// What the line counts besides all entries.
#[derive(Clone, Copy)]
pub(crate) enum Class {
    /// Answers of success.
    Success,
    /// Other answers that refuse nothing.
    Info,
    /// Refusals.
    Refused,
    /// Entries in which an image went active or was recovered.
    Image,
}

/// Whether the status is this one, or a reset came into the copy to the store.
fn went_well(good: Status, status: Status) -> bool
    ensures { result ≡ went_well good status }
{
    status == good || status == Status::INFO_STOPPED
}

/// Whether an image went active in the request, or was recovered.
fn has_image(entry: &Entry) -> bool
    ensures { result ≡ has_image entry.now }
{
    let status = entry.reply.status;
    match &entry.request {
        Request::LoadImage { .. } | Request::LoadFile { .. } | Request::Update { .. } => {
            went_well(Status::SUCCESS, status)
        }
        Request::Manage { .. } => went_well(Status::INFO_UPDATED, status),
        Request::Register { .. } => status == Status::INFO_RECOVERED_TBL,
        _ => false,
    }
}

fn is_of(class: Class, entry: &Entry) -> bool
    ensures { result ≡ is_of class entry.now }
{
    let status = entry.reply.status.0;
    match class {
        Class::Success => status == 0,
        Class::Info => status != 0 && status < 32,
        Class::Refused => status >= 32,
        Class::Image => has_image(entry),
    }
}

fn count_of(class: Class, entries: &[Entry]) -> usize
    ensures { result ≡ count_by (is_of class) entries.now }
{
    let mut count = 0;
    'entries: for entry in entries {
        if is_of(class, entry) {
            count += 1;
        }
    }
    count
}

/// Appends a word and a number.
fn append_count(out: &mut Bytes, word: &[u8], count: usize) -> Result<(), Memory>
    ensures { OnOk result (out.new.list ≡ out.old.list ++ counted word.now count) }
{
    append_text(out, word)?;
    append_decimal(out, count as u64)?;
    Ok(())
}

/// How many entries there are, how many answer with success, with another status that refuses nothing, and with a refusal, and in
/// how many an image went active or was recovered: `entries E success S info I refused R images M` and a newline.
pub(crate) fn sum_up(alloc: Global, entries: &[Entry]) -> Result<Bytes, Memory>
    ensures { IfOk result (λ line. line.list ≡ summary entries.now) }
{
    let mut out = Bytes::make(alloc, 0)?;
    append_count(&mut out, b"entries ", entries.len())?;
    append_count(&mut out, b" success ", count_of(Class::Success, entries))?;
    append_count(&mut out, b" info ", count_of(Class::Info, entries))?;
    append_count(&mut out, b" refused ", count_of(Class::Refused, entries))?;
    append_count(&mut out, b" images ", count_of(Class::Image, entries))?;
    append_text(&mut out, b"\n")?;
    Ok(out)
}

// What a write has, and the request in which it is made.
use crate::plan::Plan;
use std::alloc::AllocError;
use std::fmt::Write as _;
use tbl_fakes::Span;
use tbl_kinds::{Actor, Entry, Request};

/// The request's name in docs/reference (commands.md and calls.md). The one command that writes to the bank is DELETE_CDS.
fn request_name(request: &Request) -> &'static str {
    match request {
        Request::Command { .. } => "DELETE_CDS",
        Request::Reset { .. } => "Reset",
        Request::Register { .. } => "Register",
        Request::LoadImage { .. } => "LoadImage",
        Request::LoadFile { .. } => "LoadFile",
        Request::Update { .. } => "Update",
        Request::Manage { .. } => "Manage",
        Request::CdsRegister { .. } => "CdsRegister",
        Request::CdsCopy { .. } => "CdsCopy",
        Request::CdsDelete { .. } => "CdsDelete",
        _ => "request",
    }
}

/// Writes a request: its place, who makes it, and its name.
fn tell_request(text: &mut String, place: usize, entry: &Entry) -> Result<(), AllocError> {
    let name = request_name(&entry.request);
    match entry.actor {
        Actor::Ground => write!(text, "{place} ground {name}"),
        Actor::App(number) => write!(text, "{place} app {number} {name}"),
    }
}

/// Writes the request in which a write is made.
pub(crate) fn tell_maker(
    text: &mut String,
    plan: &Plan<'_>,
    played: usize,
) -> Result<(), AllocError> {
    let Some(place) = played.checked_sub(1) else {
        return text.push_str("boot at the start");
    };
    match plan.history.get(place) {
        Some(entry) => tell_request(text, place, entry),
        None => Ok(()),
    }
}

/// Writes the image that a request copies.
fn tell_copied(text: &mut String, plan: &Plan<'_>, played: usize) -> Result<(), AllocError> {
    for table in plan.tables {
        if let Some(image) = table.under_way(played) {
            let number = image.number;
            let name = table.name.as_str();
            return write!(text, "image {number} of {name}");
        }
    }
    text.push_str("image of an application block")
}

/// Where the directory begins, and the bytes of an entry.
const DIRECTORY_AT: u32 = 16;

const ENTRY_LEN: u32 = 64;

/// The place of the turn bytes in an entry.
const TURNS_AT: u32 = 52;

/// Where the blocks begin.
const BLOCKS_AT: u32 = 8_208;

/// What a write in an entry has, by its place there.
fn part_of(place: u32) -> &'static str {
    match place {
        0 => "gate",
        TURNS_AT.. => "turn byte",
        _ => "entry",
    }
}

/// Writes what a write has, by its place in the bank (docs/reference/store.md). Only a copy writes into the place of a block.
pub(crate) fn tell_piece(
    text: &mut String,
    plan: &Plan<'_>,
    played: usize,
    span: Span,
) -> Result<(), AllocError> {
    let at = span.at;
    if at >= BLOCKS_AT {
        return tell_copied(text, plan, played);
    }
    let Some(place) = at.checked_sub(DIRECTORY_AT) else {
        return text.push_str(if at == 0 { "live byte" } else { "letters" });
    };
    if span.length > ENTRY_LEN {
        return text.push_str("directory");
    }
    let slot = place / ENTRY_LEN;
    let part = part_of(place % ENTRY_LEN);
    write!(text, "{part} of slot {slot}")
}

// What a request does to critical tables: how it registers one, and whether it takes the block of one away.
use crate::tables::Registration;
use bitflags::Flags;
use std::alloc::{AllocError, Global};
use tbl_kinds::{Entry, Name16, Name20, Name40, Options, Outcome, Request, ResetKind, Status};

/// A full name: application, dot, short name.
pub(crate) fn full_name(alloc: Global, app: &Name20, name: &Name16) -> Result<String, AllocError> {
    let mut text = String::new(alloc);
    for byte in app.bytes() {
        text.push(char::from(*byte))?;
    }
    text.push('.')?;
    for byte in name.bytes() {
        text.push(char::from(*byte))?;
    }
    Ok(text)
}

/// Whether a table is to be critical.
fn is_critical(flags: u16) -> bool {
    Options::from_bits_retain(flags).contains(Options::CRITICAL)
}

/// How a request registered a critical table; none if it did something else.
pub(crate) fn registration_of(entry: &Entry, app: &Name20) -> Option<Registration> {
    let Request::Register {
        name,
        size,
        flags,
        validator,
    } = &entry.request
    else {
        return None;
    };
    let status = entry.reply.status;
    if status != Status::SUCCESS && status != Status::INFO_RECOVERED_TBL || !is_critical(*flags) {
        return None;
    }
    Some(Registration {
        actor: entry.actor,
        app: app.copy(),
        name: name.copy(),
        size: *size,
        flags: *flags,
        validator: *validator,
    })
}

/// The name of the table whose block a command deletes.
fn deleted_name(packet: &[u8]) -> Option<Name40> {
    let field = packet.get(8..48)?;
    Some(Name40::of(field))
}

/// Whether a request takes the block of the table of this name away. The one command that calls the store deletes a block.
pub(crate) fn takes_block(entry: &Entry, name: &[u8]) -> bool {
    match &entry.request {
        Request::Reset {
            kind: ResetKind::PowerOn,
        } => true,
        Request::Command { bytes } if entry.given.outcome() == Outcome::Done => {
            deleted_name(bytes.bytes()).is_some_and(|deleted| deleted.bytes() == name)
        }
        _ => false,
    }
}

//! The types that every other crate speaks of, and in specs/ the definitions that their contracts cite.
#![tactic(auto)]

mod admit;
mod block;
mod bytes;
mod entry;
pub mod fields;
mod given;
mod inline;
mod name;
mod note;
mod number;
mod options;
mod request;
mod slots;
mod status;
mod telemetry;
mod uplink;

pub use admit::Admit;
pub use block::{Block, BlockKind};
pub use bytes::{Bytes, Memory};
pub use entry::{Answer, Entry, Reply};
pub use given::Given;
pub use inline::INLINE_LIMIT;
pub use name::{Name, Name16, Name20, Name40, Name64};
pub use note::{BankNote, Note, Outcome, Outside};
pub use number::{u16_at, u32_at};
pub use options::Options;
pub use request::{Actor, Request, ResetKind, fits};
pub use slots::Slots;
pub use status::Status;
pub use telemetry::{Event, Housekeeping, RegistryRow, TlmHead};
pub use uplink::{FILE_NAME_LENGTH, FileName, Uplink};

ghost use Rattle.std.specs.Prelude.{◌≡◌};

use crate::bytes::Bytes;
use crate::given::Given;
use crate::request::{Actor, Request};
use crate::status::Status;

/// What a request is answered with.
#[derive(Drop)]
pub struct Reply {
    pub status: Status,
    /// What the status is about: a handle, a verdict, a function code. 0 where nothing is named.
    pub detail: u32,
    /// Image bytes, files or a record that were asked for.
    pub bytes: Bytes,
    /// The telemetry packets and notices that the request sent, joined in their order.
    pub packets: Bytes,
}

/// One event of the service: a request, and all that came of it.
#[derive(Drop)]
pub struct Entry {
    pub actor: Actor,
    pub request: Request,
    pub reply: Reply,
    pub given: Given,
}

/// A status with its detail.
#[derive(Clone, Copy, PartialEq, Eq)]
pub struct Answer {
    pub status: Status,
    pub detail: u32,
}

impl Answer {
    /// An answer that names nothing: its detail is 0.
    pub fn plain(status: Status) -> Answer
        ensures status { result.status ≡ status }
        ensures detail { result.detail ≡ 0 }
    {
        Answer { status, detail: 0 }
    }
}

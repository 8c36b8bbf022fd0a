//! Event packets.

ghost use Rattle.std.specs.Prelude.{◌≡◌, ◌<◌, ◌≤◌, length};
ghost use Rattle.tbl_kinds.specs.Packets.{telemetry_packet, event_id};
ghost use Rattle.tbl_kinds.specs.Telemetry.{event_body};
ghost use Rattle.cfe_headers.specs.Appends.{Appends};

use cfe_headers::{TLM_FRONT_LENGTH, fill_tlm_front};
use tbl_kinds::{Bytes, Event, TlmHead};

/// The message id of event packets.
pub(crate) const EVENT_ID: u16 = 0x0808;

/// How many bytes an event packet has.
const EVENT_LENGTH: usize = 24;

/// Fills in an event's body.
#[inline]
#[tactic(auto, unfolding(tbl_kinds::specs::Telemetry::event_body))]
fn fill_body(body: &mut [u8], event: &Event)
    requires { length body.old ≡ 12 }
    ensures { body.new ≡ event_body event.now }
{
    let (number, rest) = body.split_at_mut(2);
    let (status, rest) = rest.split_at_mut(4);
    let (row, detail) = rest.split_at_mut(2);
    number.copy_from_slice(&event.number.to_be_bytes());
    status.copy_from_slice(&event.status.0.to_be_bytes());
    row.copy_from_slice(&event.row.to_be_bytes());
    detail.copy_from_slice(&event.detail.to_be_bytes());
}

/// Appends an event packet, 24 bytes.
#[tactic(auto, unfolding(tbl_kinds::specs::Packets::telemetry_packet))]
pub fn write_event(out: &mut Bytes, head: &TlmHead, event: &Event)
    requires room { 24 ≤ out.old.spare }
    requires count { head.now.count < 16384 }
    ensures { Appends (telemetry_packet event_id head.now (event_body event.now)) 24 out.old out.new }
{
    let mut packet = [0; EVENT_LENGTH];
    let (front, body) = packet.split_at_mut(TLM_FRONT_LENGTH);
    fill_tlm_front(front, EVENT_ID, head, EVENT_LENGTH as u16);
    fill_body(body, event);
    out.append(&packet);
}

//! Telemetry packets of the service and its notices, each written as its one spelling into room that the caller has
//! reserved; and telemetry packets read, exactly where they are a spelling.
#![tactic(auto)]

mod event;
mod housekeeping;
mod laws;
mod notice;
mod reading;
mod registry;

pub use event::write_event;
pub use housekeeping::write_housekeeping;
pub use laws::{event_packets_are_read, housekeeping_packets_are_read, registry_packets_are_read};
pub use notice::write_notice;
pub use reading::{read_event, read_housekeeping, read_registry};
pub use registry::{registry_bytes, write_registry, write_registry_front};

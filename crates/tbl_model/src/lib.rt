//! In specs/ the sequential service as definitions: its state, what each request does to it, what telemetry tells of it, and the
//! histories that are legal and whole; the layers above cite them in their contracts.
#![tactic(auto)]

mod telemetry;

pub use telemetry::{Named, Notice, Shown, TelemetryEvent};

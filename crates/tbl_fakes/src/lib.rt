//! The outside in memory, for tests: a layer above can be sure that each object keeps its whole trait, and knows beforehand which of its
//! calls fail.
#![tactic(auto)]

mod breaking_bank;
mod calm;
mod calm_bank;
mod counting_gate;
mod gates;
mod mem_bank;
mod mem_sink;
mod mem_source;
mod notes;
mod past;
mod plan;
mod supply;
mod troubles;

pub use breaking_bank::BreakingBank;
pub use calm::{CalmSink, CalmSource};
pub use calm_bank::CalmBank;
pub use counting_gate::{CountingGate, Told};
pub use gates::{MeetingGate, OpenGate, OrderedGate, ReadingGate};
pub use mem_bank::MemBank;
pub use mem_sink::MemSink;
pub use mem_source::MemSource;
pub use past::Span;
pub use troubles::Break;

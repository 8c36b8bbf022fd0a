//! Calls as a table states them.

use crate::callers::try_callers;
use crate::first_calls::try_first;
use crate::lasting::try_lasting;
use crate::reads::try_reads;
use std::sync::Wait;
use std::thread::Threads;
use test_tables::{CaseFault, Row, RowCases};

/// Tries calls.
#[derive(Drop)]
pub(crate) struct Calls;

impl RowCases for Calls {
    /// A row is `ground | PLACE/STATUS PLACE/STATUS`: the ground sets the time and sends a NOOP through its seat, and these are the
    /// receipts. `reads | TIMES | ENTRIES`: application 1 starts, registers a table, loads it, and gets, reads and releases it so
    /// often; its image comes whole each time. `callers | APPLICATIONS | CALLS | TIMES | ENTRIES`: so many applications, with a thread each, start and then make so
    /// many calls, and the whole so many times. `pinned | ..` is the same, and each reads a large image of its own through a pin. The number is that of all entries of the history each time. Of each application the
    /// receipts are compared with its entries of the history. `lasting | CALLS`: the ground sends so many NOOPs to a service that keeps no
    /// history, and each receipt has the number of calls before it.
    fn try_row<R: Threads + Wait + Sync>(&mut self, rt: &R, row: &Row) -> Result<u32, CaseFault> {
        match (row.text(0)?, row.len()) {
            ("ground", 2) => try_first(rt, row),
            ("lasting", 2) => try_lasting(rt, row),
            ("reads", 3) => try_reads(rt, row),
            ("callers" | "pinned", 5) => try_callers(rt, row),
            _ => Err(CaseFault::Unreadable),
        }
    }
}

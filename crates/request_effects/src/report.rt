//! What telemetry reports of a request.

ghost use Rattle.std.specs.Prelude.{◌≡◌, ◌<◌, ◌++◌, [], ◌∷◌, length, None, Some, IfOk};
ghost use Rattle.request_effects.specs.Reports.{nothing_reported, most_events};

use std::alloc::Global;
use std::marker::Model;
use tbl_kinds::Memory;
use tbl_model::{Named, Notice, Shown, TelemetryEvent};

/// The most events of a request, besides a command's own.
const EVENT_LIMIT: usize = 8;

/// What telemetry reports of a request. Its memory is taken once and used again by each request, so that reporting what was done can't run
/// out of memory once it is done.
#[derive(Drop)]
pub struct Report {
    /// The table that a command names or a load fills.
    pub table: Option<Named>,
    events: Vec<TelemetryEvent>,
    /// The packet after the events.
    pub shown: Shown,
    /// The command packet that notifies an application of pending work.
    pub notice: Option<Notice>,
    verdicts: [Option<i32>; 2],
}

impl Model for Report {
    ghost use Rattle.std.specs.Prelude.{◌≤◌, vec_capacity};
    ghost use Rattle.request_effects.specs.Reports.{Reported, most_events};

    ghost Value = { Reported };

    ghost view = { λ r. record { table = r.table; events = r.events.items; shown = r.shown; notice = r.notice; verdicts = r.verdicts } };

    ghost invariant = { λ r. most_events ≤ vec_capacity r.events };
}

impl Report {
    /// Nothing is reported yet.
    pub fn make(alloc: Global) -> Result<Report, Memory>
        ensures { IfOk result (λ report. report ≡ nothing_reported) }
    {
        Ok(Report {
            table: None,
            events: Vec::with_capacity(alloc, EVENT_LIMIT)?,
            shown: Shown::Nothing,
            notice: None,
            verdicts: [None, None],
        })
    }

    /// Nothing is reported any more. The memory stays.
    pub fn clear(&mut self)
        ensures { self.new ≡ nothing_reported }
    {
        self.table = None;
        self.events.clear();
        self.shown = Shown::Nothing;
        self.notice = None;
        self.verdicts = [None, None];
    }

    /// What was done, in order.
    pub fn events(&self) -> &[TelemetryEvent]
        ensures { result.now ≡ self.now.events }
    {
        self.events.as_slice()
    }

    /// What validation functions answered, in order.
    pub fn verdicts(&self) -> [Option<i32>; 2]
        ensures { result ≡ self.now.verdicts }
    {
        self.verdicts
    }

    /// The request is about this table.
    pub fn name_table(&mut self, table: Named)
        ensures { self.new ≡ record self.old { table = Some table } }
    {
        self.table = Some(table);
    }

    /// One event more.
    pub fn add_event(&mut self, event: TelemetryEvent)
        requires { length self.old.events < most_events }
        ensures { self.new ≡ record self.old { events = self.old.events ++ event ∷ [] } }
    {
        self.events.push_reserved(event);
    }

    /// This packet follows the events.
    pub fn show(&mut self, shown: Shown)
        ensures { self.new ≡ record self.old { shown = shown } }
    {
        self.shown = shown;
    }

    /// The owner of a table is notified of pending work by this packet, if it is to be notified.
    pub fn notify(&mut self, notice: Option<Notice>)
        ensures { self.new ≡ record self.old { notice = notice } }
    {
        self.notice = notice;
    }

    /// Validation functions answered this.
    pub fn judge(&mut self, verdicts: [Option<i32>; 2])
        ensures { self.new ≡ record self.old { verdicts = verdicts } }
    {
        self.verdicts = verdicts;
    }

    /// The processor was reset before it could report more than what was done.
    pub fn cut_off(&mut self)
        ensures { self.new ≡ record self.old { table = None; shown = Shown.Nothing; notice = None } }
    {
        self.table = None;
        self.shown = Shown::Nothing;
        self.notice = None;
    }
}

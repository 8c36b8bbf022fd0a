//! What is counted of commands, of events and of loads.

ghost use Rattle.std.specs.Prelude.{◌≡◌, Some, true};
ghost use Rattle.std.specs.Option.{option_copied};
ghost use Rattle.tbl_model.specs.Commands.{asks_housekeeping, asks_reset_counters, asks_validate};
ghost use Rattle.request_effects.specs.Requests.{read_of};

use crate::counters::{Counters, Update, Validation};
use crate::events::is_good;
use cmd_packets::Ground;
use request_effects::{Clock, ReadCommand};
use tbl_kinds::{Name64, Status};
use tbl_model::{Named, TelemetryEvent};

/// What is counted of a command by what it asks.
#[derive(Drop)]
struct Asks {
    is_housekeeping: bool,
    resets: bool,
    validates: bool,
}

/// What a command asks that is counted in its own way.
fn asks_of(command: &ReadCommand) -> Asks
    ensures { let read = Some (read_of command.now) in
        result ≡ record { is_housekeeping = asks_housekeeping read; resets = asks_reset_counters read; validates = asks_validate read } }
{
    match command {
        Ok(Ground::Housekeeping) => Asks {
            is_housekeeping: true,
            resets: false,
            validates: false,
        },
        Ok(Ground::ResetCounters) => Asks {
            is_housekeeping: false,
            resets: true,
            validates: false,
        },
        Ok(Ground::Validate { .. }) => Asks {
            is_housekeeping: false,
            resets: false,
            validates: true,
        },
        _ => Asks {
            is_housekeeping: false,
            resets: false,
            validates: false,
        },
    }
}

impl Counters {
    ghost use Rattle.reply_packets.specs.Counters.{counts_view, counted_command, counted_event, counted_load};

    /// Counts a command that was accepted, or refused.
    pub(crate) fn count_command(&mut self, command: &ReadCommand, status: Status)
        ensures { counts_view self.new ≡ counted_command (Some (read_of command.now)) status (counts_view self.old) }
    {
        let asks = asks_of(command);
        let is_accepted = status == Status::SUCCESS;
        if is_accepted && asks.resets {
            self.accepted = 0;
            self.refused = 0;
            self.requests = 0;
            self.finished = 0;
            self.good = 0;
            self.bad = 0;
            return;
        }
        let counts = is_accepted && !asks.is_housekeeping && !asks.resets;
        self.accepted = self.accepted.wrapping_add(u8::from(counts));
        self.refused = self.refused.wrapping_add(u8::from(!is_accepted));
        self.requests = self
            .requests
            .wrapping_add(u8::from(is_accepted && asks.validates));
    }

    /// Counts what an event reports.
    pub(crate) fn count_event(&mut self, clock: Clock, event: &TelemetryEvent)
        ensures { counts_view self.new ≡ counted_event clock.seconds clock.sub event.now (counts_view self.old) }
    {
        match event {
            TelemetryEvent::Finished {
                active,
                check,
                verdict,
                name,
                ..
            } => {
                let is_good = is_good(*verdict);
                self.finished = self.finished.wrapping_add(1);
                self.good = self.good.wrapping_add(u8::from(is_good));
                self.bad = self.bad.wrapping_add(u8::from(!is_good));
                self.validation = Validation {
                    check: *check,
                    verdict: *verdict,
                    active: u8::from(*active),
                    name: name.copy(),
                };
            }
            TelemetryEvent::Activated { name, .. } => {
                self.update = Update {
                    seconds: clock.seconds,
                    sub: clock.sub,
                    name: name.copy(),
                };
            }
            TelemetryEvent::Dumped { file, .. } => self.dumped_file = file.copy(),
            _ => {}
        }
    }

    /// Counts an accepted load of this table, from this file if it was from one.
    pub(crate) fn count_load(&mut self, table: &Option<Named>, file: Option<&Name64>)
        ensures { counts_view self.new ≡ counted_load true (option_copied file.entry) table.now (counts_view self.old) }
    {
        if let Some(table) = table {
            self.loaded = table.name.copy();
        }
        if let Some(file) = file {
            self.loaded_file = file.copy();
        }
    }
}

//! The running numbers of telemetry.

ghost use Rattle.std.specs.Prelude.{◌≡◌, ◌+◌, ◌%◌, ◌<◌, true};
ghost use Rattle.tbl_model.specs.CountsAfter.{counts_after, tally_of};
ghost use Rattle.tbl_model.specs.Counts.{Told, no_counts, restarts};

use std::marker::Model;
use tbl_kinds::{Name40, Name64};
use tbl_model::Shown;

/// Sequence counts have 14 bits (CCSDS 133.0-B, "Packet Sequence Count").
pub(crate) const SEQUENCE_COUNTS: u16 = 16_384;

/// An image that went active: when, and of which table.
#[derive(Drop)]
pub struct Update {
    pub seconds: u32,
    pub sub: u16,
    pub name: Name40,
}

/// A validation that came to its end.
#[derive(Drop)]
pub struct Validation {
    /// The check word of its image.
    pub check: u16,
    pub verdict: i32,
    /// 1 for the last image, 0 for that of the open load.
    pub active: u8,
    /// The full name of its table.
    pub name: Name40,
}

impl Model for Update {
    ghost use Rattle.tbl_model.specs.Counts.{Update as Told};

    ghost Value = { Told };

    ghost view = { λ u. record { seconds = u.seconds; sub = u.sub; name = u.name } };
}

impl Model for Validation {
    ghost use Rattle.tbl_model.specs.Counts.{Validation as Told};

    ghost Value = { Told };

    ghost view = { λ v. record { check = v.check; verdict = v.verdict; active = v.active; name = v.name } };
}

impl Update {
    /// The same update once more.
    fn duplicate(&self) -> Update
        ensures { result ≡ self.now }
    {
        Update {
            name: self.name.copy(),
            ..*self
        }
    }
}

impl Validation {
    /// The same validation once more.
    fn duplicate(&self) -> Validation
        ensures { result ≡ self.now }
    {
        Validation {
            name: self.name.copy(),
            ..*self
        }
    }
}

/// How many commands were accepted and refused, and how many validations were requested and finished, since the counters were
/// cleared; how many packets of each kind were sent since the service began, and what was the latest of each kind.
#[derive(Drop)]
pub struct Counters {
    pub accepted: u8,
    pub refused: u8,
    pub finished: u16,
    pub good: u8,
    pub bad: u8,
    pub requests: u8,
    pub events: u16,
    pub housekeepings: u16,
    pub registries: u16,
    pub notices: u16,
    pub validation: Validation,
    pub update: Update,
    pub loaded: Name40,
    pub loaded_file: Name64,
    pub dumped_file: Name64,
    ghost accepted_fits: { accepted < 256 },
    ghost refused_fits: { refused < 256 },
    ghost finished_fits: { finished < 65536 },
    ghost good_fits: { good < 256 },
    ghost bad_fits: { bad < 256 },
    ghost requests_fit: { requests < 256 },
    ghost events_fit: { events < 16384 },
    ghost housekeepings_fit: { housekeepings < 16384 },
    ghost registries_fit: { registries < 16384 },
    ghost notices_fit: { notices < 16384 },
}

impl Counters {
    ghost use Rattle.reply_packets.specs.Counters.{counts_view, sent_shown};

    /// Nothing was counted yet.
    pub fn make() -> Counters
        ensures { counts_view result ≡ no_counts }
    {
        Counters {
            accepted: 0,
            refused: 0,
            finished: 0,
            good: 0,
            bad: 0,
            requests: 0,
            events: 0,
            housekeepings: 0,
            registries: 0,
            notices: 0,
            validation: Validation {
                check: 0,
                verdict: 0,
                active: 0,
                name: Name40::of(&[]),
            },
            update: Update {
                seconds: 0,
                sub: 0,
                name: Name40::of(&[]),
            },
            loaded: Name40::of(&[]),
            loaded_file: Name64::of(&[]),
            dumped_file: Name64::of(&[]),
        }
    }

    /// The same running numbers. It takes no memory.
    pub fn duplicate(&self) -> Counters
        ensures { counts_view result ≡ counts_view self.now }
    {
        Counters {
            accepted: self.accepted,
            refused: self.refused,
            finished: self.finished,
            good: self.good,
            bad: self.bad,
            requests: self.requests,
            events: self.events,
            housekeepings: self.housekeepings,
            registries: self.registries,
            notices: self.notices,
            validation: self.validation.duplicate(),
            update: self.update.duplicate(),
            loaded: self.loaded.copy(),
            loaded_file: self.loaded_file.copy(),
            dumped_file: self.dumped_file.copy(),
        }
    }

    /// The service began again: nothing is counted any more, and nothing is the latest.
    pub fn begin_anew(&mut self)
        ensures { (t : Told) → restarts t ≡ true → counts_view self.new ≡ counts_after (counts_view self.old) (tally_of t) }
    {
        *self = Counters::make();
    }

    /// The sequence count of the next housekeeping packet, which is counted.
    pub(crate) fn next_housekeeping(&mut self) -> u16
        ensures sent { result ≡ self.old.housekeepings }
        ensures counts { counts_view self.new ≡ sent_shown Shown.Housekeeping (counts_view self.old) }
    {
        let sent = self.housekeepings;
        self.housekeepings = (sent + 1) % SEQUENCE_COUNTS;
        sent
    }

    /// And that of the next registry packet.
    pub(crate) fn next_registry(&mut self) -> u16
        ensures sent { result ≡ self.old.registries }
        ensures counts { counts_view self.new ≡ sent_shown (Shown.Registry 0) (counts_view self.old) }
    {
        let sent = self.registries;
        self.registries = (sent + 1) % SEQUENCE_COUNTS;
        sent
    }

    /// And that of the next notice.
    pub(crate) fn next_notice(&mut self) -> u16
        ensures sent { result ≡ self.old.notices }
        ensures counts { counts_view self.new ≡ record (counts_view self.old) { notices = (self.old.notices + 1) % 16384 } }
    {
        let sent = self.notices;
        self.notices = (sent + 1) % SEQUENCE_COUNTS;
        sent
    }
}

//! What the registry says of a table.

ghost use Rattle.std.specs.Prelude.{◌≡◌, ◌==◌, ◌<◌, ◌≤◌, length, position, is_some, IfSome};
ghost use Rattle.std.specs.Option.{option_map_or};
ghost use Rattle.std.specs.List.{position_or_len};
ghost use Rattle.tbl_kinds.specs.Check.{check16};
ghost use Rattle.tbl_kinds.specs.Names.{HasNoZero, name_field};
ghost use Rattle.tbl_kinds.specs.Records.{validator_number};
ghost use Rattle.tbl_kinds.specs.Telemetry.{registry_record};
ghost use Rattle.tbl_model.specs.Registry.{registry_row, owner_name, bits_of, bit_at};
ghost use Rattle.tbl_registry.specs.Records.{numbers_of, names_of};

use super::Row;
use bitflags::Flags;
use tbl_kinds::{Name40, Options};

/// How many bytes a record of the registry has.
pub(crate) const RECORD_LENGTH: usize = 144;

/// How many of them come before its names.
const NUMBERS_LENGTH: usize = 20;

/// The place of the first dot.
fn first_dot(name: &[u8]) -> Option<usize>
    ensures first { result ≡ position (λ b. b == 46) name.now }
    ensures within { IfSome result (λ dot. dot < length name.now) }
{
    name.iter().position(|byte| *byte == b'.')
}

/// How many bytes come before the first dot, or else all.
fn before_dot(name: &[u8]) -> usize
    ensures first { result ≡ position_or_len (λ b. b == 46) name.now }
    ensures within { result ≤ length name.now }
{
    match first_dot(name) {
        Some(dot) => dot,
        None => name.len(),
    }
}

/// The application's name in a full name.
fn owner_in(name: &Name40) -> &[u8]
    ensures owner { result.now ≡ owner_name name.now }
    ensures within { length result.now ≤ 20 }
    ensures no_zero { HasNoZero result.now }
{
    let bytes = name.bytes();
    let owner = &bytes[..before_dot(bytes)];
    if owner.len() > 20 {
        &owner[..20]
    } else {
        owner
    }
}

/// The field of the application's name in a full name.
fn owner_field(name: &Name40) -> [u8; 20]
    ensures bytes { result ≡ name_field 20 (owner_name name.now) }
    ensures len { length (name_field 20 (owner_name name.now)) ≡ 20 }
{
    let owner = owner_in(name);
    let mut field = [0; 20];
    field[..owner.len()].copy_from_slice(owner);
    field
}

/// The value of a bit that is set, else 0.
fn bit_at(value: u8, set: bool) -> u8
    ensures bit { result ≡ bit_at value set }
    ensures within { result ≤ value }
{
    if set { value } else { 0 }
}

impl Row {
    /// Bit 0 loaded, 1 activation requested, 2 dump only, 3 double buffered, 4 critical, 5 load open.
    fn bits(&self) -> u8
        ensures { result ≡ bits_of self.now }
    {
        bit_at(1, self.buffers.active().is_some())
            + bit_at(2, self.asked)
            + bit_at(4, self.flags.contains(Options::DUMP_ONLY))
            + bit_at(8, self.flags.contains(Options::DOUBLE))
            + bit_at(16, self.flags.contains(Options::CRITICAL))
            + bit_at(32, self.load.is_some())
    }

    /// The check word of its last image, 0 if there is none.
    fn check(&self) -> u32
        ensures { result ≡ option_map_or check16 self.now.last 0 }
    {
        match self.buffers.active() {
            Some(image) => u32::from(image.check_word()),
            None => 0,
        }
    }

    /// The number of its validation function, 0xFF for none.
    fn validator_number(&self) -> u8
        ensures { result ≡ validator_number self.now.validator }
    {
        match self.validator {
            Some(number) => number,
            None => 0xFF,
        }
    }

    /// Fills in the numbers of its record.
    #[inline]
    fn fill_numbers(&self, out: &mut [u8])
        requires { length out.old ≡ 20 }
        ensures { out.new ≡ numbers_of (registry_row self.now) }
    {
        let (size, rest) = out.split_at_mut(4);
        let (check, rest) = rest.split_at_mut(4);
        let (count, rest) = rest.split_at_mut(4);
        let (seconds, rest) = rest.split_at_mut(4);
        let (sub, marks) = rest.split_at_mut(2);
        size.copy_from_slice(&self.size.to_be_bytes());
        check.copy_from_slice(&self.check().to_be_bytes());
        count.copy_from_slice(&self.count.to_be_bytes());
        seconds.copy_from_slice(&self.seconds.to_be_bytes());
        sub.copy_from_slice(&self.sub.to_be_bytes());
        marks.copy_from_slice(&[self.bits(), self.validator_number()]);
    }

    /// Fills in the names of its record.
    #[inline]
    fn fill_names(&self, out: &mut [u8])
        requires { length out.old ≡ 124 }
        ensures { out.new ≡ names_of (registry_row self.now) }
    {
        let (name, rest) = out.split_at_mut(40);
        let (owner, file) = rest.split_at_mut(20);
        name.copy_from_slice(&self.name.field());
        owner.copy_from_slice(&owner_field(&self.name));
        file.copy_from_slice(&self.file.field());
    }

    /// Its record in the registry, as registry packets and registry files have it.
    #[inline]
    #[tactic(auto, unfolding(tbl_kinds::specs::Telemetry::registry_record))]
    pub(crate) fn record(&self) -> [u8; RECORD_LENGTH]
        ensures record { result ≡ registry_record (registry_row self.now) }
        ensures len { length (registry_record (registry_row self.now)) ≡ 144 }
    {
        let mut record = [0; RECORD_LENGTH];
        let (numbers, names) = record.split_at_mut(NUMBERS_LENGTH);
        self.fill_numbers(numbers);
        self.fill_names(names);
        record
    }
}

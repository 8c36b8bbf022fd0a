//! Registry packets, and the records that they carry.

ghost use Rattle.std.specs.Prelude.{◌≡◌, ◌<◌, ◌≤◌, [], ◌∷◌, ◌++◌, length};
ghost use Rattle.tbl_kinds.specs.Names.{name_field};
ghost use Rattle.tbl_kinds.specs.Numbers.{two, four};
ghost use Rattle.tbl_kinds.specs.Packets.{telemetry_packet, registry_id};
ghost use Rattle.tbl_kinds.specs.Telemetry.{registry_record};
ghost use Rattle.cfe_headers.specs.Appends.{Appends};
ghost use Rattle.tlm_packets.specs.Begun.{Begins};

use cfe_headers::{TLM_FRONT_LENGTH, fill_tlm_front};
use tbl_kinds::{Bytes, RegistryRow, TlmHead};

/// The message id of registry packets.
pub(crate) const REGISTRY_ID: u16 = 0x080C;

/// How many bytes a record has.
const RECORD_LENGTH: usize = 144;

/// How many bytes a registry packet has.
const PACKET_LENGTH: usize = TLM_FRONT_LENGTH + RECORD_LENGTH;

/// Fills in the numbers of a record.
#[inline]
fn fill_numbers(out: &mut [u8], row: &RegistryRow)
    requires { length out.old ≡ 20 }
    ensures { out.new ≡ four row.now.size ++ four row.now.check ++ four row.now.count ++ four row.now.seconds ++ two row.now.sub ++ row.now.bits ∷ row.now.validator ∷ [] }
{
    let (size, rest) = out.split_at_mut(4);
    let (check, rest) = rest.split_at_mut(4);
    let (count, rest) = rest.split_at_mut(4);
    let (seconds, rest) = rest.split_at_mut(4);
    let (sub, marks) = rest.split_at_mut(2);
    size.copy_from_slice(&row.size.to_be_bytes());
    check.copy_from_slice(&row.check.to_be_bytes());
    count.copy_from_slice(&row.count.to_be_bytes());
    seconds.copy_from_slice(&row.seconds.to_be_bytes());
    sub.copy_from_slice(&row.sub.to_be_bytes());
    marks.copy_from_slice(&[row.bits, row.validator]);
}

/// Fills in the names of a record.
#[inline]
fn fill_names(out: &mut [u8], row: &RegistryRow)
    requires { length out.old ≡ 124 }
    ensures { out.new ≡ name_field 40 row.now.name ++ name_field 20 row.now.owner ++ name_field 64 row.now.file }
{
    let (name, rest) = out.split_at_mut(40);
    let (owner, file) = rest.split_at_mut(20);
    name.copy_from_slice(&row.name.field());
    owner.copy_from_slice(&row.owner.field());
    file.copy_from_slice(&row.file.field());
}

/// Fills in a record.
#[inline]
#[tactic(auto, unfolding(tbl_kinds::specs::Telemetry::registry_record))]
fn fill_record(out: &mut [u8], row: &RegistryRow)
    requires { length out.old ≡ 144 }
    ensures { out.new ≡ registry_record row.now }
{
    let (numbers, names) = out.split_at_mut(20);
    fill_numbers(numbers, row);
    fill_names(names, row);
}

/// Appends a table's registry record, 144 bytes, as registry packets and registry files have it.
pub fn registry_bytes(out: &mut Bytes, row: &RegistryRow)
    requires { 144 ≤ out.old.spare }
    ensures { Appends (registry_record row.now) 144 out.old out.new }
{
    let mut record = [0; RECORD_LENGTH];
    fill_record(&mut record, row);
    out.append(&record);
}

/// Appends what stands before the record in a registry packet, 12 bytes. The record itself, 144 bytes, has to come next: so whoever
/// can append one needn't make a `RegistryRow` for it.
#[inline]
#[tactic(auto, unfolding(tbl_kinds::specs::Packets::telemetry_packet))]
pub fn write_registry_front(out: &mut Bytes, head: &TlmHead)
    requires room { 12 ≤ out.old.spare }
    requires count { head.now.count < 16384 }
    ensures { Begins (telemetry_packet registry_id head.now) 144 12 out.old out.new }
{
    let mut front = [0; TLM_FRONT_LENGTH];
    fill_tlm_front(&mut front, REGISTRY_ID, head, PACKET_LENGTH as u16);
    out.append(&front);
}

/// Appends a registry packet, 156 bytes.
#[tactic(auto, unfolding(tbl_kinds::specs::Packets::telemetry_packet))]
pub fn write_registry(out: &mut Bytes, head: &TlmHead, row: &RegistryRow)
    requires room { 156 ≤ out.old.spare }
    requires count { head.now.count < 16384 }
    ensures { Appends (telemetry_packet registry_id head.now (registry_record row.now)) 156 out.old out.new }
{
    let mut packet = [0; PACKET_LENGTH];
    let (front, record) = packet.split_at_mut(TLM_FRONT_LENGTH);
    fill_tlm_front(front, REGISTRY_ID, head, PACKET_LENGTH as u16);
    fill_record(record, row);
    out.append(&packet);
}

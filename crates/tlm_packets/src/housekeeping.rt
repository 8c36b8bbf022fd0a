//! Housekeeping packets.

ghost use Rattle.std.specs.Prelude.{◌≡◌, ◌<◌, ◌≤◌, ◌++◌, length};
ghost use Rattle.tbl_kinds.specs.Names.{name_field};
ghost use Rattle.tbl_kinds.specs.Packets.{telemetry_packet, housekeeping_id};
ghost use Rattle.tbl_kinds.specs.Telemetry.{housekeeping_body, commands_and_loads, last_validation, validations_and_buffers, last_update};
ghost use Rattle.cfe_headers.specs.Appends.{Appends};

use cfe_headers::{TLM_FRONT_LENGTH, fill_tlm_front};
use tbl_kinds::{Bytes, Housekeeping, TlmHead};

/// The message id of housekeeping packets.
pub(crate) const HOUSEKEEPING_ID: u16 = 0x0804;

/// How many bytes a housekeeping packet has.
const PACKET_LENGTH: usize = 290;

#[inline]
#[tactic(auto, unfolding(tbl_kinds::specs::Telemetry::commands_and_loads))]
fn fill_commands_and_loads(out: &mut [u8], state: &Housekeeping)
    requires { length out.old ≡ 8 }
    ensures { out.new ≡ commands_and_loads state.now }
{
    let (commands, rest) = out.split_at_mut(2);
    let (tables, rest) = rest.split_at_mut(2);
    let (loads, finished) = rest.split_at_mut(2);
    commands.copy_from_slice(&[state.accepted, state.refused]);
    tables.copy_from_slice(&state.tables.to_be_bytes());
    loads.copy_from_slice(&state.loads.to_be_bytes());
    finished.copy_from_slice(&state.finished.to_be_bytes());
}

#[inline]
#[tactic(auto, unfolding(tbl_kinds::specs::Telemetry::last_validation))]
fn fill_last_validation(out: &mut [u8], state: &Housekeeping)
    requires { length out.old ≡ 9 }
    ensures { out.new ≡ last_validation state.now }
{
    let (check, rest) = out.split_at_mut(4);
    let (verdict, active) = rest.split_at_mut(4);
    check.copy_from_slice(&state.check.to_be_bytes());
    verdict.copy_from_slice(&state.verdict.to_be_bytes());
    active.copy_from_slice(&[state.active]);
}

#[inline]
#[tactic(auto, unfolding(tbl_kinds::specs::Telemetry::validations_and_buffers))]
fn fill_validations_and_buffers(out: &mut [u8], state: &Housekeeping)
    requires { length out.old ≡ 7 }
    ensures { out.new ≡ validations_and_buffers state.now }
{
    out.copy_from_slice(&[state.good, state.bad, state.requests, state.free, 0, 0, 0]);
}

#[inline]
#[tactic(auto, unfolding(tbl_kinds::specs::Telemetry::last_update))]
fn fill_last_update(out: &mut [u8], state: &Housekeeping)
    requires { length out.old ≡ 6 }
    ensures { out.new ≡ last_update state.now }
{
    let (seconds, sub) = out.split_at_mut(4);
    seconds.copy_from_slice(&state.seconds.to_be_bytes());
    sub.copy_from_slice(&state.sub.to_be_bytes());
}

#[inline]
fn fill_names(out: &mut [u8], state: &Housekeeping)
    requires { length out.old ≡ 248 }
    ensures { out.new ≡ name_field 40 state.now.validated ++ name_field 40 state.now.updated ++ name_field 64 state.now.loaded_file
        ++ name_field 64 state.now.dumped_file ++ name_field 40 state.now.loaded }
{
    let (validated, rest) = out.split_at_mut(40);
    let (updated, rest) = rest.split_at_mut(40);
    let (loaded_file, rest) = rest.split_at_mut(64);
    let (dumped_file, loaded) = rest.split_at_mut(64);
    validated.copy_from_slice(&state.validated.field());
    updated.copy_from_slice(&state.updated.field());
    loaded_file.copy_from_slice(&state.loaded_file.field());
    dumped_file.copy_from_slice(&state.dumped_file.field());
    loaded.copy_from_slice(&state.loaded.field());
}

#[inline]
#[tactic(auto, unfolding(tbl_kinds::specs::Telemetry::housekeeping_body))]
fn fill_body(out: &mut [u8], state: &Housekeeping)
    requires { length out.old ≡ 278 }
    ensures { out.new ≡ housekeeping_body state.now }
{
    let (loads, rest) = out.split_at_mut(8);
    let (validation, rest) = rest.split_at_mut(9);
    let (buffers, rest) = rest.split_at_mut(7);
    let (update, names) = rest.split_at_mut(6);
    fill_commands_and_loads(loads, state);
    fill_last_validation(validation, state);
    fill_validations_and_buffers(buffers, state);
    fill_last_update(update, state);
    fill_names(names, state);
}

/// Appends a housekeeping packet, 290 bytes.
#[tactic(auto, unfolding(tbl_kinds::specs::Packets::telemetry_packet))]
pub fn write_housekeeping(out: &mut Bytes, head: &TlmHead, state: &Housekeeping)
    requires room { 290 ≤ out.old.spare }
    requires count { head.now.count < 16384 }
    ensures { Appends (telemetry_packet housekeeping_id head.now (housekeeping_body state.now)) 290 out.old out.new }
{
    let mut packet = [0; PACKET_LENGTH];
    let (front, body) = packet.split_at_mut(TLM_FRONT_LENGTH);
    fill_tlm_front(front, HOUSEKEEPING_ID, head, PACKET_LENGTH as u16);
    fill_body(body, state);
    out.append(&packet);
}

//! What a command asks, and the table that it is about.

ghost use Rattle.std.specs.Prelude.{◌≡◌, IsSome, IfSome, IfNone};
ghost use Rattle.std.specs.Option.{ForSome};
ghost use Rattle.tbl_kinds.specs.GroundCommands.{code_of, command_in};
ghost use Rattle.tbl_model.specs.Tables.{table_at};
ghost use Rattle.cmd_packets.specs.Views.{command_of};
ghost use Rattle.request_effects.specs.Requests.{read_of, LeadsTo, IsMissing};

use cmd_packets::{CmdFault, Ground, read_command};
use tbl_kinds::Name40;
use tbl_model::{Named, Notice};
use tbl_registry::Tables;

/// What the packet of a command was read as.
pub type ReadCommand = Result<Ground, CmdFault>;

/// Reads the packet of a command into its place.
#[tactic(auto, using(crate::proofs::CommandReadings::gives_read))]
pub fn read(packet: &[u8], command: &mut ReadCommand)
    ensures { read_of command.new ≡ command_in packet.now }
{
    read_command(packet, command);
}

/// The function code of a command, which event 1 has; 0 for a housekeeping request.
pub fn code_of(command: &Ground) -> u8
    ensures { result ≡ code_of (command_of command.now) }
{
    match command {
        Ground::Housekeeping | Ground::Noop => 0,
        Ground::ResetCounters => 1,
        Ground::Load { .. } => 2,
        Ground::Dump { .. } => 3,
        Ground::Validate { .. } => 4,
        Ground::Activate { .. } => 5,
        Ground::DumpRegistry { .. } => 6,
        Ground::SendRegistry { .. } => 7,
        Ground::DeleteCds { .. } => 8,
        Ground::Abort { .. } => 9,
    }
}

/// The table of this full name, which a command is about from here on.
pub fn subject(tables: &Tables, name: &Name40) -> Option<Named>
    ensures found { IfSome result (LeadsTo tables.now name.now) }
    ensures missing { IfNone result (IsMissing tables.now name.now) }
    ensures table { IfSome result (λ table. IsSome (table_at tables.now table.row)) }
{
    let row = tables.find(name.bytes())?;
    Some(Named {
        row,
        name: name.copy(),
    })
}

/// The command packet that notifies the owner of the table of a row of pending work.
pub fn notice(tables: &Tables, row: u8) -> Option<Notice>
    ensures { ForSome (table_at tables.now row) (λ t. result ≡ t.notice) }
{
    tables.row(row)?.notice
}

//! Notices: the commands that the service sends to applications.

ghost use Rattle.std.specs.Prelude.{◌<◌, ◌≤◌};
ghost use Rattle.tbl_kinds.specs.Numbers.{four};
ghost use Rattle.tbl_kinds.specs.Packets.{command_packet};
ghost use Rattle.cfe_headers.specs.Appends.{Appends};

use cfe_headers::write_cmd;
use tbl_kinds::Bytes;

/// Appends a notice, 12 bytes: a command packet of the message id and the function code that the owner of a table gave, with
/// its parameter as payload (cFE's `CFE_TBL_NotifyByMessage`).
pub fn write_notice(out: &mut Bytes, count: u16, msg: u16, code: u8, parameter: u32)
    requires room { 12 ≤ out.old.spare }
    requires count { count < 16384 }
    requires code { code < 128 }
    ensures { Appends (command_packet msg count code (four parameter)) 12 out.old out.new }
{
    write_cmd(out, msg, count, code, &parameter.to_be_bytes());
}

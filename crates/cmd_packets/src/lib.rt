//! What the ground asks, read from a command packet: a command is read exactly where the packet has its form, and else
//! the first part that fails is named.
#![tactic(auto)]

mod commands;
mod laws;
mod reading;

pub use commands::{CmdFault, Ground};
pub use laws::{
    commands_are_read, nothing_else_is_looked_at, what_is_read_is_a_command,
    written_commands_are_read,
};
pub use reading::read_command;

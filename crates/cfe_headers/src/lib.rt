//! CCSDS packets and cFE file headers between values and bytes: command packets and file headers are read exactly where
//! they are whole, with the first flaw named else, and each packet and header is written in its one spelling.
#![tactic(auto)]

mod file;
mod laws;
mod packets;

pub use file::{
    FileHeader, HEADER_LENGTH, HeaderFault, fill_file_header, read_file_header, write_file_header,
};
pub use laws::{
    command_packets_are_read, what_is_read_is_a_command_packet, what_is_read_is_a_header,
    written_commands_are_command_packets, written_headers_are_read,
};
pub use packets::{
    CmdPacket, PacketFault, TLM_FRONT_LENGTH, fill_tlm_front, read_packet, write_cmd, write_tlm,
};

//! Laws of the spellings: what is read is spelled so, and what was written is read again.

ghost use Rattle.std.specs.Prelude.{◌≡◌, ℕ, ◌<◌, ◌≤◌, ◌^◌, List, length, None};
ghost use Rattle.tbl_kinds.specs.Fields.{AreBytes};
ghost use Rattle.tbl_kinds.specs.Packets.{IsCommandPacket, command_packet, packet_flaw, packet_id, packet_code, packet_payload};
ghost use Rattle.tbl_kinds.specs.Headers.{Header, IsHeader, header_flaw};
ghost use Rattle.cfe_headers.specs.Readings.{ReadsPacket, ReadsHeader, BeginsWithHeader};

/// Every command packet is read, with its id, its code and its payload.
pub fn command_packets_are_read()
    ensures { (bytes : List ℕ) (id code : ℕ) (payload : List ℕ) → IsCommandPacket bytes id code payload → ReadsPacket bytes id code payload }
{}

/// Nothing else is read as a command packet.
pub fn what_is_read_is_a_command_packet()
    ensures { (bytes : List ℕ) → AreBytes bytes → packet_flaw bytes ≡ None → IsCommandPacket bytes (packet_id bytes) (packet_code bytes) (packet_payload bytes) }
{}

/// A written command packet is one, with the id, the code and the payload that it was written with.
pub fn written_commands_are_command_packets()
    ensures { (id count code : ℕ) (payload : List ℕ) → id < 2 ^ 16 → code < 128 → length payload ≤ 65000 → IsCommandPacket (command_packet id count code payload) id code payload }
{}

/// A written header is read again, whatever follows it.
pub fn written_headers_are_read()
    ensures { (header : Header) (more : List ℕ) → IsHeader header → ReadsHeader header more }
{}

/// Whatever is read as a header is one, in its one spelling.
pub fn what_is_read_is_a_header()
    ensures { (bytes : List ℕ) → AreBytes bytes → header_flaw bytes ≡ None → BeginsWithHeader bytes }
{}

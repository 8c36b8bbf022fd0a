//! Packets: the primary header, and after it the headers of command packets and of telemetry packets.

ghost use Rattle.std.specs.Prelude.{◌≡◌, ◌+◌, ◌<◌, ◌≤◌, length, bit_xor};
ghost use Rattle.std.specs.List.{fold};
ghost use Rattle.std.specs.Int.{w64, to_le_bytes};
ghost use Rattle.tbl_kinds.specs.Packets.{primary_header, command_packet, telemetry_packet};
ghost use Rattle.cfe_headers.specs.Appends.{Appends};
ghost use Rattle.cfe_headers.specs.Fronts.{telemetry_front};
ghost use Rattle.cfe_headers.specs.Readings.{GivesPacket};

use byteorder::{BigEndian, ByteOrder};
use tbl_kinds::{Bytes, TlmHead};
use thiserror::Error;

/// How many bytes the primary header has (CCSDS 133.0-B, "Packet Primary Header").
const PRIMARY_LENGTH: usize = 6;

/// What a packet has more bytes than its length field says.
const LENGTH_LESS: u16 = 7;

/// Sequence flags 3: the packet is whole, and no segment of a longer one.
const UNSEGMENTED: u16 = 0xC000;

/// Fills in the primary header of a packet of `len` bytes in all.
#[inline]
#[tactic(auto, unfolding(tbl_kinds::specs::Packets::primary_header))]
fn fill_primary(header: &mut [u8], id: u16, count: u16, len: u16)
    requires count { count < 16384 }
    requires len { 7 ≤ len }
    requires room { length header.old ≡ 6 }
    ensures { header.new ≡ primary_header id count len }
{
    let (number, rest) = header.split_at_mut(2);
    let (sequence, length) = rest.split_at_mut(2);
    number.copy_from_slice(&id.to_be_bytes());
    sequence.copy_from_slice(&(UNSEGMENTED + count).to_be_bytes());
    length.copy_from_slice(&(len - LENGTH_LESS).to_be_bytes());
}

// ---- command packets

/// What a command packet carries in its headers (CCSDS 133.0-B; cFE's `CFE_MSG_CommandSecondaryHeader`). The payload is the bytes from place 8.
#[derive(Clone, Copy, PartialEq, Eq)]
pub struct CmdPacket {
    /// The message id: the first 16 bits.
    pub id: u16,
    /// The function code, below 128.
    pub code: u8,
}

/// What is wrong with a command packet, in the order tested.
#[derive(Clone, Copy, Debug, PartialEq, Eq, Error)]
pub enum PacketFault {
    /// There are fewer than 8 bytes.
    #[error("a command packet has 8 bytes or more")]
    Short,
    /// The length field and 7 are not the number of bytes.
    #[error("the length field differs from the packet's length")]
    BadLength,
    /// The exclusive or of 0xFF and all bytes is not 0.
    #[error("the checksum is wrong")]
    BadCheck,
}

/// The exclusive or of the eight bytes of a word.
fn xor_of_bytes(word: u64) -> u8
    ensures { result ≡ fold bit_xor 0 (to_le_bytes w64 word) }
{
    let twos = word ^ (word >> 8);
    let fours = twos ^ (twos >> 16);
    let eights = fours ^ (fours >> 32);
    (eights % 256) as u8
}

/// The exclusive or of a sum and all bytes, eight of them at a time. The checksum of a packet begins with 0xFF.
fn checksum_from(sum: u8, bytes: &[u8]) -> u8
    ensures { result ≡ fold bit_xor sum bytes.now }
{
    let (eights, rest) = bytes.as_chunks();
    let word = eights
        .iter()
        .fold(0, |word, eight| word ^ u64::from_le_bytes(*eight));
    rest.iter()
        .fold(sum ^ xor_of_bytes(word), |sum, byte| sum ^ *byte)
}

/// Reads the headers of a command packet, all of the bytes. The sequence flags, the sequence count and the high bit
/// of the code byte are not looked at.
pub fn read_packet(bytes: &[u8]) -> Result<CmdPacket, PacketFault>
    ensures { GivesPacket bytes.now result }
{
    if bytes.len() < 8 {
        return Err(PacketFault::Short);
    }
    if BigEndian::read_u16(&bytes[4..]) as usize + LENGTH_LESS as usize != bytes.len() {
        return Err(PacketFault::BadLength);
    }
    if checksum_from(0xFF, bytes) != 0 {
        return Err(PacketFault::BadCheck);
    }
    Ok(CmdPacket {
        id: BigEndian::read_u16(bytes),
        code: bytes[6] % 128,
    })
}

/// Appends a command packet: the primary header, the function code, the check byte that makes the checksum 0, and the
/// payload.
pub fn write_cmd(out: &mut Bytes, id: u16, count: u16, code: u8, payload: &[u8])
    requires room { 8 + length payload.now ≤ out.old.spare }
    requires count { count < 16384 }
    requires code { code < 128 }
    requires payload { length payload.now ≤ 65000 }
    ensures { Appends (command_packet id count code payload.now) (8 + length payload.now) out.old out.new }
{
    let start = out.bytes().len();
    let mut header = [0; PRIMARY_LENGTH];
    fill_primary(&mut header, id, count, 8 + payload.len() as u16);
    out.append(&header);
    out.append(&[code]);
    let (_, front) = out.bytes().split_at(start);
    let sum = checksum_from(0xFF, front);
    out.append(&[checksum_from(sum, payload)]);
    out.append(payload);
}

// ---- telemetry packets

/// How many bytes of a telemetry packet stand before its body.
pub const TLM_FRONT_LENGTH: usize = 12;

/// Fills in what stands before the body of a telemetry packet of `len` bytes in all: the primary header and the time. So a packet of
/// a fixed size can be put together as one piece.
#[inline]
pub fn fill_tlm_front(front: &mut [u8], id: u16, head: &TlmHead, len: u16)
    requires count { head.now.count < 16384 }
    requires len { 7 ≤ len }
    requires room { length front.old ≡ 12 }
    ensures { front.new ≡ telemetry_front id head.now len }
{
    let (header, time) = front.split_at_mut(PRIMARY_LENGTH);
    let (seconds, sub) = time.split_at_mut(4);
    fill_primary(header, id, head.count, len);
    seconds.copy_from_slice(&head.seconds.to_be_bytes());
    sub.copy_from_slice(&head.sub.to_be_bytes());
}

/// Appends a telemetry packet: the primary header, the time and the body. The secondary header is cFE's
/// `CFE_MSG_TelemetrySecondaryHeader`: seconds, and subseconds in units of 1/65,536 of a second.
#[tactic(auto, unfolding(tbl_kinds::specs::Packets::telemetry_packet))]
pub fn write_tlm(out: &mut Bytes, id: u16, count: u16, seconds: u32, sub: u16, body: &[u8])
    requires room { 12 + length body.now ≤ out.old.spare }
    requires count { count < 16384 }
    requires body { length body.now ≤ 65000 }
    ensures { Appends (telemetry_packet id (record { count = count; seconds = seconds; sub = sub }) body.now) (12 + length body.now) out.old out.new }
{
    let head = TlmHead {
        count,
        seconds,
        sub,
    };
    let mut front = [0; TLM_FRONT_LENGTH];
    fill_tlm_front(&mut front, id, &head, 12 + body.len() as u16);
    out.append(&front);
    out.append(body);
}

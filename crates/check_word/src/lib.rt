//! The check word of images (CRC-16/ARC): the layers above may rely on it that it is the definition's, bit by bit.
#![tactic(auto)]

ghost use Rattle.std.specs.Prelude.{◌≡◌, ◌-◌, ◌<◌, ◌≤◌, ◌∷◌, ◌++◌, drop, length, replicate};
ghost use Rattle.std.specs.List.{fold};
ghost use Rattle.tbl_kinds.specs.Check.{after_byte, check16};
ghost use Rattle.check_word.specs.Later.{later};
ghost use Rattle.check_word.specs.Left.{after_block, after_blocks, word_of};

use std::simd::prelude::*;

mod checked;

pub use checked::Checked;

/// The words of all bytes, from those of the eight bytes with one bit set: each doubles the list, by exclusive-or.
macro_rules! words {
    ([$($word:expr),*]) => { [$($word),*] };
    ([$($word:expr),*] $bit:literal $($bits:literal)*) => {
        words!([$($word,)* $($word ^ $bit),*] $($bits)*)
    };
}

/// For each place in a step of 32 bytes, the word that each byte there has become at the end of the step.
static PLACES: [[u16; 256]; 32] = [
    words!([0] 0xAC01 0x1801 0x3002 0x6004 0xC008 0xC013 0xC025 0xC049),
    words!([0] 0xC091 0xC121 0xC241 0xC481 0xC901 0xD201 0xE401 0x8801),
    words!([0] 0x5001 0xA002 0x0007 0x000E 0x001C 0x0038 0x0070 0x00E0),
    words!([0] 0x01C0 0x0380 0x0700 0x0E00 0x1C00 0x3800 0x7000 0xE000),
    words!([0] 0x8003 0x4005 0x800A 0x4017 0x802E 0x405F 0x80BE 0x417F),
    words!([0] 0x82FE 0x45FF 0x8BFE 0x57FF 0xAFFE 0x1FFF 0x3FFE 0x7FFC),
    words!([0] 0xFFF8 0xBFF3 0x3FE5 0x7FCA 0xFF94 0xBF2B 0x3E55 0x7CAA),
    words!([0] 0xF954 0xB2AB 0x2555 0x4AAA 0x9554 0x6AAB 0xD556 0xEAAF),
    words!([0] 0x955D 0x6AB9 0xD572 0xEAE7 0x95CD 0x6B99 0xD732 0xEE67),
    words!([0] 0x9CCD 0x7999 0xF332 0xA667 0x0CCD 0x199A 0x3334 0x6668),
    words!([0] 0xCCD0 0xD9A3 0xF345 0xA689 0x0D11 0x1A22 0x3444 0x6888),
    words!([0] 0xD110 0xE223 0x8445 0x4889 0x9112 0x6227 0xC44E 0xC89F),
    words!([0] 0xD13D 0xE279 0x84F1 0x49E1 0x93C2 0x6787 0xCF0E 0xDE1F),
    words!([0] 0xFC3D 0xB879 0x30F1 0x61E2 0xC3C4 0xC78B 0xCF15 0xDE29),
    words!([0] 0xFC51 0xB8A1 0x3141 0x6282 0xC504 0xCA0B 0xD415 0xE829),
    words!([0] 0x9051 0x60A1 0xC142 0xC287 0xC50D 0xCA19 0xD431 0xE861),
    words!([0] 0x90C1 0x6181 0xC302 0xC607 0xCC0D 0xD819 0xF031 0xA061),
    words!([0] 0x00C1 0x0182 0x0304 0x0608 0x0C10 0x1820 0x3040 0x6080),
    words!([0] 0xC100 0xC203 0xC405 0xC809 0xD011 0xE021 0x8041 0x4081),
    words!([0] 0x8102 0x4207 0x840E 0x481F 0x903E 0x607F 0xC0FE 0xC1FF),
    words!([0] 0xC3FD 0xC7F9 0xCFF1 0xDFE1 0xFFC1 0xBF81 0x3F01 0x7E02),
    words!([0] 0xFC04 0xB80B 0x3015 0x602A 0xC054 0xC0AB 0xC155 0xC2A9),
    words!([0] 0xC551 0xCAA1 0xD541 0xEA81 0x9501 0x6A01 0xD402 0xE807),
    words!([0] 0x900D 0x6019 0xC032 0xC067 0xC0CD 0xC199 0xC331 0xC661),
    words!([0] 0xCCC1 0xD981 0xF301 0xA601 0x0C01 0x1802 0x3004 0x6008),
    words!([0] 0xC010 0xC023 0xC045 0xC089 0xC111 0xC221 0xC441 0xC881),
    words!([0] 0xD101 0xE201 0x8401 0x4801 0x9002 0x6007 0xC00E 0xC01F),
    words!([0] 0xC03D 0xC079 0xC0F1 0xC1E1 0xC3C1 0xC781 0xCF01 0xDE01),
    words!([0] 0xFC01 0xB801 0x3001 0x6002 0xC004 0xC00B 0xC015 0xC029),
    words!([0] 0xC051 0xC0A1 0xC141 0xC281 0xC501 0xCA01 0xD401 0xE801),
    words!([0] 0x9001 0x6001 0xC002 0xC007 0xC00D 0xC019 0xC031 0xC061),
    words!([0] 0xC0C1 0xC181 0xC301 0xC601 0xCC01 0xD801 0xF001 0xA001),
];

/// What a byte at this place of a step adds to the word at its end.
fn added(place: usize, byte: u8) -> u16
    requires { place < 32 }
    ensures { result ≡ later (32 - place) byte }
{
    PLACES[place][byte as usize]
}

/// What the bytes of a step after its first two add to the word at its end.
fn word_of_rest(step: &[u8; 32]) -> u16
    ensures { result ≡ fold after_byte 0 (0 ∷ 0 ∷ drop 2 step.now) }
{
    let mut word = 0;
    for place in 2..32 {
        word ^= added(place, step[place]);
    }
    word
}

/// The word so far goes into the first two bytes of the step. They are looked up last, so that no other byte waits for the word.
fn after_step(word: u16, step: &[u8; 32]) -> u16
    ensures { result ≡ fold after_byte word step.now }
{
    let first = step[0] ^ (word % 256) as u8;
    let second = step[1] ^ (word / 256) as u8;
    word_of_rest(step) ^ (added(0, first) ^ added(1, second))
}

/// A byte goes into the low byte, and eight bits go out: those above only move down.
fn after_byte(word: u16, byte: u8) -> u16
    ensures { result ≡ after_byte word byte }
{
    let mixed = word ^ byte as u16;
    added(31, (mixed % 256) as u8) ^ (mixed / 256)
}

/// The word after these bytes.
fn after_bytes(word: u16, bytes: &[u8]) -> u16
    ensures { result ≡ fold after_byte word bytes.now }
{
    let (steps, tail) = bytes.as_chunks();
    let word = steps.iter().fold(word, |word, step| after_step(word, step));
    tail.iter().fold(word, |word, byte| after_byte(word, *byte))
}

/// The last 16 blocks of 16 bytes, each with what the blocks before it add.
type Left = [u8x16; 16];

/// The last 16 blocks after one more, to which those 1, 14 and 16 places before it are added.
fn after_block(left: Left, block: &[u8; 16]) -> Left
    ensures { result ≡ after_block left block.now }
{
    let new = u8x16::from_array(*block) ^ left[15] ^ left[2] ^ left[0];
    [
        left[1], left[2], left[3], left[4], left[5], left[6], left[7], left[8], left[9], left[10],
        left[11], left[12], left[13], left[14], left[15], new,
    ]
}

/// The last 16 blocks after 16 more. The compiler writes the loop out, so that no block is moved.
fn after_blocks(left: Left, bytes: &[u8; 256]) -> Left
    ensures { result ≡ after_blocks left bytes.now }
{
    let mut left = left;
    let (blocks, _) = bytes.as_chunks::<16>();
    for block in blocks {
        let more = after_block(left, block);
        left = more;
    }
    left
}

/// The word of all blocks, by the last 16: to each are added those 1 and 14 places before it, among these. It stands apart, so
/// that the loop over an image keeps no sum for it.
#[inline(never)]
fn word_of(left: Left) -> u16
    ensures { result ≡ word_of left }
{
    let ended = [
        left[0].to_array(),
        (left[1] ^ left[0]).to_array(),
        (left[2] ^ left[1]).to_array(),
        (left[3] ^ left[2]).to_array(),
        (left[4] ^ left[3]).to_array(),
        (left[5] ^ left[4]).to_array(),
        (left[6] ^ left[5]).to_array(),
        (left[7] ^ left[6]).to_array(),
        (left[8] ^ left[7]).to_array(),
        (left[9] ^ left[8]).to_array(),
        (left[10] ^ left[9]).to_array(),
        (left[11] ^ left[10]).to_array(),
        (left[12] ^ left[11]).to_array(),
        (left[13] ^ left[12]).to_array(),
        (left[14] ^ left[13] ^ left[0]).to_array(),
        (left[15] ^ left[14] ^ left[1]).to_array(),
    ];
    after_bytes(0, ended.as_flattened())
}

/// Zeros before a few bytes, so that they fill 16 blocks.
fn filled(bytes: &[u8]) -> [u8; 256]
    requires { length bytes.now ≤ 256 }
    ensures { result ≡ replicate (256 - length bytes.now) 0 ++ bytes.now }
{
    let mut blocks = [0; 256];
    blocks[256 - bytes.len()..].copy_from_slice(bytes);
    blocks
}

/// The check word by the last 16 blocks. Zeros before an image, which don't change it, fill its first 16.
#[inline(never)]
fn long_word(bytes: &[u8]) -> u16
    ensures { result ≡ check16 bytes.now }
{
    let (first, others) = bytes.as_rchunks::<256>();
    let mut left = after_blocks([u8x16::splat(0); 16], &filled(first));
    for bytes in others {
        let more = after_blocks(left, bytes);
        left = more;
    }
    word_of(left)
}

/// From how many bytes on an image is long: below, the tables alone are faster.
const LONG: usize = 384;

/// The check word of these bytes.
pub fn check16(bytes: &[u8]) -> u16
    ensures { result ≡ check16 bytes.now }
{
    if bytes.len() < LONG {
        after_bytes(0, bytes)
    } else {
        long_word(bytes)
    }
}

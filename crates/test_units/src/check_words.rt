use check_word::check16;
use std::test::Fail;

#[test]
fn known_check_words(rt: HostRuntime) {
    let words = [
        check16(&[]),
        check16(b"123456789"),
        check16(&[1, 2, 3, 4]),
        check16(&[5, 6, 7, 4]),
        check16(&[5, 6, 7, 8]),
    ];
    assert_eq!(rt; words, [0x0000, 0xBB3D, 0x0FA1, 0x3EE3, 0x3BE3]);
}

/// The check word of so many bytes 0, 1, .. 250, 0, 1, ..
fn word_of(image: &[u8], count: usize) -> u16 {
    check16(image.get(..count).unwrap_or(&[]))
}

/// About the lengths from which on blocks are added to those after them, and of which all are filled. Expected as bit by bit.
#[test]
fn check_words_by_length(rt: HostRuntime) -> Result<(), Fail> {
    let mut image = vec![in rt.alloc(); 0; 16_384]?;
    for (place, byte) in image.iter_mut().enumerate() {
        *byte = (place % 251) as u8;
    }
    let lengths = [
        255, 256, 257, 383, 384, 385, 511, 512, 513, 1_000, 4_097, 16_384,
    ];
    let words = lengths.map(|count| word_of(image.as_slice(), count));
    let expected = [
        0x3778, 0xE136, 0x15A1, 0xEF4B, 0x54AF, 0xDFD5, 0xE7D6, 0x98A6, 0x7D98, 0x13DA, 0x7B53,
        0x8E4C,
    ];
    assert_eq!(rt; words, expected);
    Ok(())
}

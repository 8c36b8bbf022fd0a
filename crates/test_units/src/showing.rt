use cds_layout::shown;
use std::test::Fail;

/// Two turn bytes, and the place that shows.
type Case = ([u8; 2], Option<u8>);

const CASES: [Case; 20] = [
    ([0x00, 0x00], None),
    ([0xFF, 0x9F], None),
    ([0xA3, 0xA5], None),
    // One is open.
    ([0xA0, 0x00], Some(0)),
    ([0xA1, 0xFF], Some(0)),
    ([0xA2, 0xA3], Some(0)),
    ([0x00, 0xA0], Some(1)),
    ([0x9F, 0xA1], Some(1)),
    ([0x20, 0xA2], Some(1)),
    // Both have the same turn.
    ([0xA0, 0xA0], Some(0)),
    ([0xA1, 0xA1], Some(0)),
    ([0xA2, 0xA2], Some(0)),
    // One has the turn after the other's.
    ([0xA0, 0xA1], Some(1)),
    ([0xA1, 0xA2], Some(1)),
    ([0xA2, 0xA0], Some(1)),
    ([0xA1, 0xA0], Some(0)),
    ([0xA2, 0xA1], Some(0)),
    ([0xA0, 0xA2], Some(0)),
    // A closed byte that is near to an open one.
    ([0xA1, 0xA4], Some(0)),
    ([0x5F, 0xA0], Some(1)),
];

#[test]
fn the_place_that_shows(rt: HostRuntime) -> Result<(), Fail> {
    for (turns, want) in CASES {
        assert_eq!(rt; shown(turns), want);
    }
    Ok(())
}

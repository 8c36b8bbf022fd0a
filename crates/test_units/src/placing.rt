use cds_pool::place;
use std::alloc::Global;
use std::test::Fail;
use tbl_kinds::{Block, BlockKind, Memory, Name};

/// Where blocks of two sizes have room beside blocks of these offsets and sizes.
fn places(
    alloc: Global,
    taken: &[(u32, u32)],
    sizes: (u32, u32),
) -> Result<[Option<u32>; 2], Memory> {
    let mut blocks = Vec::new(alloc);
    for (offset, size) in taken {
        blocks.push(Block {
            kind: BlockKind::App,
            offset: *offset,
            size: *size,
            name: Name::of(b"CLOCK.LOG"),
        })?;
    }
    Ok([place(&blocks, sizes.0), place(&blocks, sizes.1)])
}

/// Offset and size of each block, two sizes that are wanted, and where blocks of them have room.
type Case = (&'static [(u32, u32)], (u32, u32), [Option<u32>; 2]);

const CASES: [Case; 11] = [
    (&[], (1, 4), [Some(8_208), Some(8_208)]),
    (&[], (122_856, 122_857), [Some(8_208), None]),
    (&[], (u32::MAX, u32::MAX), [None, None]),
    // After heads.
    (&[(8_220, 4)], (4, 5), [Some(8_208), Some(8_232)]),
    (&[(8_224, 4)], (8, 9), [Some(8_208), Some(8_236)]),
    // In a gap between two, or after both.
    (
        &[(8_208, 10), (8_254, 100)],
        (20, 21),
        [Some(8_226), Some(8_362)],
    ),
    // Out of order, and overlapping.
    (
        &[(8_308, 42), (8_208, 42), (8_408, 42)],
        (42, 43),
        [Some(8_258), Some(8_458)],
    ),
    (
        &[(8_208, 92), (8_250, 92), (8_200, 10)],
        (1, 1),
        [Some(8_350), Some(8_350)],
    ),
    // The bank is full, and almost full.
    (&[(8_208, 122_856)], (0, 0), [None, None]),
    (
        &[(8_217, 122_847), (u32::MAX, u32::MAX)],
        (1, 2),
        [Some(8_208), None],
    ),
    // Seven of the greatest.
    (
        &[
            (8_208, 16_384),
            (24_600, 16_384),
            (40_992, 16_384),
            (57_384, 16_384),
            (73_776, 16_384),
            (90_168, 16_384),
            (106_560, 16_384),
        ],
        (8_112, 8_113),
        [Some(122_952), None],
    ),
];

#[test]
fn the_least_place_with_room(rt: HostRuntime) -> Result<(), Fail> {
    for (taken, sizes, want) in CASES {
        assert_eq!(rt; places(rt.alloc(), taken, sizes)?, want);
    }
    Ok(())
}

//! The first block of an encoder's slice.

use block_geometry::Scan;
use cabac_contexts::{BinReader, Contexts};
use cabac_engine::Interval;
use residual_syntax::{Level, Levels, ResidualBlock, read_residual};
use std::alloc::Global;

/// The front of the data of an encoder's slice of SliceQpY 21.
#[rattlefmt::skip]
const DATA: [u8; 32] = [
    113, 134, 41, 38, 150, 238, 32, 11, 33, 62, 20, 88, 116, 226, 28, 9,
    17, 5, 148, 180, 188, 186, 54, 185, 127, 155, 48, 186, 11, 205, 145, 144,
];

/// The levels of its first block, row by row, as a decoder in another language reads them.
#[rattlefmt::skip]
const LEVELS: [i16; 64] = [
    -36, -26,  -1,   0,   1,   4,  -2,  -1,
    -30,  17,   1,  -1,   0,  -6,   0,   2,
     23,  -9,   2,   0,  -1,   0,  -2,   0,
     11,  -5,  -1,   2,   0,   0,   0,  -1,
    -13,   2,   0,   1,   1,   0,   1,   0,
     -3,  -3,   0,   0,   0,   3,   0,   0,
      3,  -3,  -1,   0,  -1,   2,   0,   0,
     -5,   1,   0,   0,   0,   0,   0,   0,
];

/// Its first block.
const BLOCK: ResidualBlock = ResidualBlock {
    c: 0,
    x: 0,
    y: 0,
    log2: 3,
    scan: Scan::Diagonal,
    bypass: false,
    skip_enabled: false,
    sign_hiding: true,
};

/// Whether these are the levels of the block, each at its place.
fn are_those(found: &[Level]) -> bool {
    let mut are_same = found.len() == 38;
    for level in found {
        let place = usize::from(level.y % 8) * 8 + usize::from(level.x % 8);
        are_same = are_same && LEVELS[place] == level.value;
    }
    are_same
}

/// Whether the block is read, up to its last bit.
fn is_block_read(levels: &mut Levels) -> bool {
    let mut reader = BinReader {
        interval: Interval::resume(&DATA, [298, 12, 239]),
        contexts: Contexts::init(21, 0),
    };
    matches!(read_residual(&mut reader, BLOCK, levels), Ok(()))
        && reader.interval.state() == [318, 316, 14]
        && are_those(levels.as_slice())
        && !levels.transform_skip()
}

fn has_its_levels(alloc: Global) -> bool {
    let Ok(mut levels) = Levels::new(alloc) else {
        return false;
    };
    is_block_read(&mut levels)
}

#[test]
fn the_first_block_has_its_levels(rt: HostRuntime) {
    assert!(rt; has_its_levels(rt.alloc()));
}

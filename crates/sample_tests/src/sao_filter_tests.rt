//! Edge and band offsets of two blocks, and a valley.

use ctu_records::ComponentOffset;
use sao_filter::{OffsetRow, sao_row};
use spec_sample_adaptive_offset::OffsetUnit;

/// Two lines of two blocks of eight columns.
const LINES: [u16; 32] = [
    10, 12, 11, 11, 14, 9, 9, 12, 15, 13, 250, 255, 254, 3, 0, 1, 12, 11, 13, 13, 10, 9, 12, 14,
    12, 13, 249, 255, 255, 0, 6, 2,
];

/// Both blocks with one offset, the second of another slice and with its flag, and whether the fifth to the eighth
/// column are kept; and what they become by a plain program after the standard's text.
const CASES: [(ComponentOffset, bool, bool, [u16; 32]); 3] = [
    (
        ComponentOffset::Edge(0, [3, 2, -2, -3]),
        false,
        false,
        [
            10, 9, 13, 13, 11, 11, 11, 12, 15, 16, 250, 252, 254, 3, 3, 1, 12, 14, 11, 11, 10, 12,
            12, 14, 12, 13, 249, 253, 253, 3, 3, 2,
        ],
    ),
    (
        ComponentOffset::Edge(0, [3, 2, -2, -3]),
        false,
        true,
        [
            10, 9, 13, 13, 14, 9, 9, 12, 15, 16, 250, 252, 254, 3, 3, 1, 12, 14, 11, 11, 10, 9, 12,
            14, 12, 13, 249, 253, 253, 3, 3, 2,
        ],
    ),
    (
        ComponentOffset::Band(30, [4, -7, -5, 6]),
        true,
        false,
        [
            16, 18, 17, 17, 20, 15, 15, 18, 21, 19, 243, 248, 247, 0, 0, 0, 18, 17, 19, 19, 16, 15,
            18, 20, 18, 19, 242, 248, 248, 0, 1, 0,
        ],
    ),
];

/// Whether the blocks of a case become what they should.
fn is_case_filtered(
    offset: ComponentOffset,
    across: bool,
    keeps: bool,
    wanted: &[u16; 32],
) -> bool {
    let here = [
        OffsetUnit {
            offset,
            slice: 0,
            across: true,
        },
        OffsetUnit {
            offset,
            slice: 1,
            across,
        },
    ];
    let kept = [false, keeps, false, false];
    let row = OffsetRow {
        width: 16,
        height: 2,
        size: 8,
        depth: 8,
        row: 0,
        above: &[],
        here: &here,
        below: &[],
        place_log2: 2,
        places: 4,
        kept: &kept,
    };
    let mut out = LINES;
    sao_row(&row, &LINES, &mut out);
    out == *wanted
}

/// Whether each case is filtered so.
fn are_cases_filtered() -> bool {
    let mut are_same = true;
    for (offset, across, keeps, wanted) in CASES {
        are_same = are_same && is_case_filtered(offset, across, keeps, &wanted);
    }
    are_same
}

#[test]
fn edges_and_bands_move_samples(rt: HostRuntime) {
    assert!(rt; are_cases_filtered());
}

/// Whether a sample lower than those on both sides is raised.
fn is_valley_raised() -> bool {
    let here = [OffsetUnit {
        offset: ComponentOffset::Edge(0, [2, 1, -1, -2]),
        slice: 0,
        across: true,
    }];
    let row = OffsetRow {
        width: 8,
        height: 1,
        size: 8,
        depth: 8,
        row: 0,
        above: &[],
        here: &here,
        below: &[],
        place_log2: 2,
        places: 2,
        kept: &[],
    };
    let lines = [10, 8, 10, 10, 10, 10, 10, 10];
    let mut out = lines;
    sao_row(&row, &lines, &mut out);
    out == [10, 10, 9, 10, 10, 10, 10, 10]
}

#[test]
fn a_valley_is_raised(rt: HostRuntime) {
    assert!(rt; is_valley_raised());
}

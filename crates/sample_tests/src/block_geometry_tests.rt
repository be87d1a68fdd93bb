//! Rows that the luma filter reads.

use block_geometry::needed_rows;

/// The vertical component of a vector, the height of the picture, and the first and the last row.
fn are_rows_those_of_the_taps() -> bool {
    let mut are_same = true;
    for (my, height, first, last) in [
        (16, 32, 0, 0),
        (20, 32, 0, 1),
        (-32768, 32, 0, 0),
        (16, 8, 0, 0),
        (20, 8, 0, 0),
        (-32768, 8, 0, 0),
        (32767, 8, 0, 0),
        (32767, 32, 1, 1),
    ] {
        are_same = are_same && needed_rows(0, 8, my, height, 4) == (first, last);
    }
    are_same
}

#[test]
fn rows_are_those_of_the_filter_taps(rt: HostRuntime) {
    assert!(rt; are_rows_those_of_the_taps());
}

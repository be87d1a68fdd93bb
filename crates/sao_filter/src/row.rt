//! What a row of coding tree blocks depends on.

use spec_sample_adaptive_offset::OffsetUnit;

/// A component of a row of coding tree blocks, apart from its samples.
#[derive(Clone, Copy)]
pub struct OffsetRow<'a> {
    /// The columns of the component's plane.
    pub width: usize,
    /// Its lines.
    pub height: usize,
    /// The columns of a coding tree block.
    pub size: usize,
    /// The bits of a sample.
    pub depth: u32,
    /// The row of coding tree blocks, counted from the first.
    pub row: usize,
    /// The coding tree units of the row above; nothing is asked of them in the first row.
    pub above: &'a [OffsetUnit],
    /// Those of this row.
    pub here: &'a [OffsetUnit],
    /// Those of the row below; nothing is asked of them in the last row.
    pub below: &'a [OffsetUnit],
    /// The columns and the lines of a place, as a power of 2.
    pub place_log2: u32,
    /// The places of a line.
    pub places: usize,
    /// Whether the samples of a place stay as they were deblocked, line by line from the row's first line on; none,
    /// where no sample of the row does.
    pub kept: &'a [bool],
}

//! Rows that are spoiled.

/// How a row is spoiled at its last coding tree unit.
#[derive(Clone, Copy, Debug, PartialEq, Eq)]
pub enum BendKind {
    /// A byte FF stands behind its substream: broken trailing bits.
    Byte,
    /// end_of_subset_one_bit is 0.
    Subset,
    /// end_of_slice_segment_flag is 1.
    Slice,
}

/// A row of a picture that is spoiled.
#[derive(Clone, Copy, Debug, PartialEq, Eq)]
pub struct Bend {
    /// The picture, from 0 in coding order.
    pub picture: u32,
    /// The row, 0 to 4: the last one has no end_of_subset_one_bit.
    pub row: u32,
    /// How.
    pub kind: BendKind,
}

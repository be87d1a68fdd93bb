//! The lines of a flight: one phase of one row of coding tree blocks of one picture.

/// What is done at the coding tree units of a row.
#[derive(Clone, Copy, Debug, PartialEq, Eq)]
pub enum Phase {
    /// Syntax is parsed, motion derived and samples built, unit by unit.
    B,
    /// Vertical edges are deblocked, the row as a whole.
    V,
    /// Horizontal edges are deblocked, the row as a whole.
    H,
    /// Sample adaptive offset, after which the row is final.
    S,
}

/// One phase of one row of coding tree blocks.
#[derive(Clone, Copy, Debug, PartialEq, Eq)]
pub struct Line {
    /// What is done at the row.
    pub phase: Phase,
    /// The picture, by its place in the flight.
    pub picture: u32,
    /// The row of coding tree blocks, from the top.
    pub row: u32,
}

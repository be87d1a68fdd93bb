//! A block of the places of a picture.

/// Places of 4x4 luma samples that a picture has: the first one, and how many there are across and down.
#[derive(Clone, Copy)]
pub struct PlaceBlock {
    /// The column of the first place in the picture.
    pub x: usize,
    /// The row of the first place in the picture.
    pub y: usize,
    /// How many places there are across.
    pub columns: usize,
    /// How many there are down.
    pub rows: usize,
}

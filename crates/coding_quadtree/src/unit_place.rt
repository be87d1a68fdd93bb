//! Where a coding tree unit stands.

/// Where a coding tree unit stands, and what is known before it.
#[derive(Clone, Copy, Debug, PartialEq, Eq)]
pub struct UnitPlace {
    /// The binary logarithm of its side in places.
    pub size: u8,
    /// Its address in raster order.
    pub address: u32,
    /// How many units a row of the picture has.
    pub width: u32,
    /// The column of its first luma sample.
    pub x: u32,
    /// The row of its first luma sample.
    pub y: u32,
    /// Qp'Y before it: that of the last coding unit, or its slice's.
    pub last_qp: u8,
    /// Whether it is the last unit of its slice segment.
    pub is_last: bool,
    /// Whether a substream begins with the next unit.
    pub ends_subset: bool,
}

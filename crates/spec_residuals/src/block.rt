//! A block of residual data, and its levels.

use block_geometry::Scan;

/// A transform block whose levels are coded.
#[derive(Clone, Copy, Debug, PartialEq, Eq)]
pub struct ResidualBlock {
    /// The colour component: 0 is luma.
    pub c: u8,
    /// The column of its first sample, in samples of the component.
    pub x: u32,
    /// The row of its first sample.
    pub y: u32,
    /// It has 2^`log2` columns and rows; 2 to 5.
    pub log2: u32,
    /// The order of its levels: scanIdx.
    pub scan: Scan,
    /// cu_transquant_bypass_flag.
    pub bypass: bool,
    /// transform_skip_enabled_flag.
    pub skip_enabled: bool,
    /// sign_data_hiding_enabled_flag.
    pub sign_hiding: bool,
}

/// A coded level, which isn't 0, with its column and row in the block: TransCoeffLevel.
#[derive(Clone, Copy, Debug, PartialEq, Eq)]
pub struct Level {
    /// Its column, from 0 to 31.
    pub x: u8,
    /// Its row, from 0 to 31.
    pub y: u8,
    /// Its value, from -2^15 to 2^15 - 1.
    pub value: i16,
}

//! The candidates of a luma mode.

/// candModeList (8.4.2).
#[derive(Clone, Copy, Debug, PartialEq, Eq)]
pub struct Candidates {
    /// candModeList[0], from 0 to 34.
    pub first: u8,
    /// candModeList[1], from 0 to 34.
    pub second: u8,
    /// candModeList[2], from 0 to 34.
    pub third: u8,
}

//! Kinds of scans.

/// The order in which the coefficients of a block are coded, backwards.
#[derive(Clone, Copy, Debug, PartialEq, Eq)]
pub enum Scan {
    /// Diagonals, each from the left end up to the right (6.5.3).
    Diagonal,
    /// Rows (6.5.4).
    Horizontal,
    /// Columns (6.5.5).
    Vertical,
}

//! A coding tree block of a row.

/// A coding tree block of a row.
#[derive(Clone, Copy)]
pub struct CodingTreeBlock {
    /// The column of its coding tree unit.
    pub k: usize,
    /// Its first column.
    pub from: usize,
    /// The column behind its last.
    pub to: usize,
    /// How many lines it has.
    pub lines: usize,
    /// How many lines stand above the row's first.
    pub skip: usize,
}

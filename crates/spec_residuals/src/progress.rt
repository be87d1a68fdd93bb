//! What is known of a block while its sub-blocks are read.

/// A sub-block of 4x4 coefficients.
#[derive(Clone, Copy, Debug, PartialEq, Eq)]
pub struct SubBlock {
    /// Its index in the scan of sub-blocks.
    pub index: u32,
    /// Its column among the sub-blocks.
    pub x: u32,
    /// Its row.
    pub y: u32,
    /// coded_sub_block_flag of the one to the right.
    pub right: bool,
    /// coded_sub_block_flag of the one below.
    pub below: bool,
}

/// What sub-blocks leave to those behind them.
#[derive(Clone, Copy, Debug, PartialEq, Eq)]
pub struct Progress {
    /// coded_sub_block_flag of each sub-block, nine places a row, so that those outside the block have theirs, 0.
    pub coded: [bool; 81],
    /// Whether the last sub-block with such flags has a coeff_abs_level_greater1_flag of 1.
    pub raised: bool,
}

/// The coeff_abs_level_greater1_flag elements of a sub-block.
#[derive(Clone, Copy, Debug, PartialEq, Eq)]
pub struct Greater1Flags {
    /// The flags, in reading order.
    pub flags: [bool; 16],
    /// greater1Ctx of the next flag, from 0 to 3.
    pub context: u32,
    /// Which flag is the first 1.
    pub first: Option<u32>,
}

/// What levels of a sub-block leave to those behind them.
#[derive(Clone, Copy, Debug, PartialEq, Eq)]
pub struct LevelState {
    /// cRiceParam.
    pub rice: u32,
    /// sumAbsLevel.
    pub sum: u64,
}

/// What is known of the levels of a sub-block before coeff_abs_level_remaining.
#[derive(Clone, Copy, Debug, PartialEq, Eq)]
pub struct Signs {
    /// The coeff_abs_level_greater1_flag elements.
    pub greater1: Greater1Flags,
    /// coeff_abs_level_greater2_flag of the first level whose coeff_abs_level_greater1_flag is 1.
    pub greater2: bool,
    /// signHidden: the last level has no coeff_sign_flag.
    pub hidden: bool,
    /// The coeff_sign_flag elements, as the number that they spell.
    pub signs: u32,
}

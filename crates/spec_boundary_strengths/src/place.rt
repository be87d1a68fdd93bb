//! What deblocking asks of a place of a coding tree unit.

/// What is known of a place, four columns and four lines of luma samples, by what was read of its unit.
#[derive(Clone, Copy, Debug, PartialEq, Eq)]
pub struct UnitPlace {
    /// bS of the edge at its left side: 0, 1 or 2.
    pub left_strength: u8,
    /// bS of the edge at its top.
    pub top_strength: u8,
    /// Whether its luma transform block has levels that aren't 0.
    pub coded: bool,
    /// QpY of its coding unit.
    pub qp_y: i8,
    /// Whether its samples stay: they are PCM and pcm_loop_filter_disabled_flag is 1, or cu_transquant_bypass_flag is
    /// 1.
    pub kept: bool,
}

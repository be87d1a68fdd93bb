//! What the samples of a coding tree unit depend on.

/// ScalingFactor (7.4.5) of the transform blocks of intra coding units, or of inter ones, row after row: those of 4x4
/// samples for Y, Cb and Cr, of 8x8 and of 16x16 likewise, and those of 32x32 for Y. All are 16 where there are no
/// scaling lists.
#[derive(Clone, Copy, Debug, PartialEq, Eq)]
pub struct ScalingFactors {
    /// The factors, in that order.
    pub by_place: [u8; 2032],
}

/// What the samples of a coding tree unit depend on, apart from what was read of it and what stands beside it.
#[derive(Clone, Copy, Debug, PartialEq, Eq)]
pub struct UnitFormat {
    /// BitDepthY.
    pub luma_depth: u8,
    /// BitDepthC.
    pub chroma_depth: u8,
    /// PcmBitDepthY.
    pub pcm_luma_bits: u8,
    /// PcmBitDepthC.
    pub pcm_chroma_bits: u8,
    /// The sum of pps_cb_qp_offset and slice_cb_qp_offset.
    pub cb_qp_offset: i64,
    /// The sum of pps_cr_qp_offset and slice_cr_qp_offset.
    pub cr_qp_offset: i64,
    /// strong_intra_smoothing_enabled_flag.
    pub strong_intra_smoothing: bool,
    /// constrained_intra_pred_flag.
    pub constrained_intra: bool,
    /// Those of intra coding units.
    pub intra_factors: ScalingFactors,
    /// Those of inter coding units.
    pub inter_factors: ScalingFactors,
}

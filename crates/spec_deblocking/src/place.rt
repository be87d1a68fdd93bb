//! What filtering depends on, apart from the samples.

/// What is known of a place, four columns and four lines of luma samples.
#[derive(Clone, Copy, Debug, PartialEq, Eq)]
pub struct Place {
    /// bS of the edge at its left side: 0, 1 or 2.
    pub left_strength: u8,
    /// bS of the edge at its top.
    pub top_strength: u8,
    /// QpY of its coding unit.
    pub qp_y: i8,
    /// Whether its samples stay: they are PCM and pcm_loop_filter_disabled_flag is 1, or cu_transquant_bypass_flag is
    /// 1.
    pub kept: bool,
    /// slice_beta_offset_div2 of its slice.
    pub slice_beta_offset_div2: i8,
    /// slice_tc_offset_div2 of its slice.
    pub slice_tc_offset_div2: i8,
}

/// What a plane's samples are.
#[derive(Clone, Copy, Debug, PartialEq, Eq)]
pub enum Plane {
    /// Luma.
    Luma,
    /// Cb or Cr: cQpPicOffset is pps_cb_qp_offset or pps_cr_qp_offset.
    Chroma { qp_pic_offset: i8 },
}

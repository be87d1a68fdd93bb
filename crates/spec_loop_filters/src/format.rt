//! What the loop filters of a picture depend on, apart from its places and units.

/// The sides of a picture whose chroma has half as many samples across and down, and what its sets say.
#[derive(Clone, Copy, Debug, PartialEq, Eq)]
pub struct FilterFormat {
    /// Columns of luma samples.
    pub width: usize,
    /// Lines of luma samples.
    pub height: usize,
    /// The side of a coding tree block in luma samples: 16, 32 or 64.
    pub ctb_size: usize,
    /// The bits of a luma sample.
    pub luma_depth: u32,
    /// The bits of a chroma sample.
    pub chroma_depth: u32,
    /// pps_cb_qp_offset, from -12 to 12.
    pub pps_cb_qp_offset: i8,
    /// pps_cr_qp_offset, from -12 to 12.
    pub pps_cr_qp_offset: i8,
}

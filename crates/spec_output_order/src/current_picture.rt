//! What of a picture decides what goes out.

use header_types::SubLayerOrdering;

/// What of the current picture decides what goes out of the decoded picture buffer (C.5.2.2, C.5.2.3).
#[derive(Clone, Copy, Debug, PartialEq, Eq)]
pub struct CurrentPicture {
    /// PicOrderCntVal.
    pub poc: i32,
    /// Whether it is an intra random access point with NoRaslOutputFlag 1.
    pub begins_anew: bool,
    /// NoOutputOfPriorPicsFlag, where it begins anew.
    pub no_output_of_prior_pics_flag: bool,
    /// PicOutputFlag.
    pub pic_output_flag: bool,
    /// The buffering and reordering of the highest sub-layer.
    pub ordering: SubLayerOrdering,
}

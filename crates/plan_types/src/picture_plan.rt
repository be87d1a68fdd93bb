//! A picture whose headers are read, with all that its decoding needs.

use crate::outputs::Outputs;
use crate::segment_plan::SegmentPlan;
use crate::stated_hash::StatedHash;
use slice_types::{FieldList, PictureKind, Pps, Rps, Shared, Sps};

/// A picture whose headers are read.
#[derive(Debug, Drop)]
pub struct PicturePlan {
    /// The number of the NAL unit of the first slice segment.
    pub nal: u32,
    /// What is known of it before its slices are read.
    pub kind: PictureKind,
    /// The active sequence parameter set.
    pub sps: Shared<Sps>,
    /// The picture parameter set that all its slices name.
    pub pps: Shared<Pps>,
    /// PicOrderCntVal.
    pub poc: i32,
    /// The reference picture set.
    pub rps: Rps,
    /// What goes out of the decoded picture buffer at this picture, and what stays there.
    pub outputs: Outputs,
    /// The slice segments in decoding order, at least one.
    pub segments: FieldList<SegmentPlan>,
    /// The hashes that are stated for the picture, in the order of their units (D.2.19).
    pub hashes: FieldList<StatedHash>,
}

//! What the motion of a coding tree unit depends on beside the motion that is known.

use crate::vectors::Reference;

/// A slice of a picture, and where a coding tree unit of it lies. A place is a block of 4x4 luma samples.
#[derive(Clone, Copy, Debug, PartialEq, Eq)]
pub struct SliceMotion {
    /// Whether slice_type is B.
    pub is_b: bool,
    /// MaxNumMergeCand.
    pub max_candidates: u8,
    /// Log2ParMrgLevel.
    pub log2_parallel: u8,
    /// PicOrderCntVal of the picture.
    pub order: i32,
    /// RefPicList0.
    pub references_0: [Reference; 16],
    /// RefPicList1.
    pub references_1: [Reference; 16],
    /// How many of `references_0` there are: num_ref_idx_l0_active_minus1 + 1, and 0 in I slices.
    pub active_0: u8,
    /// How many of `references_1` there are: num_ref_idx_l1_active_minus1 + 1 in B slices, else 0.
    pub active_1: u8,
    /// Whether there is a collocated picture: slice_temporal_mvp_enabled_flag is 1 in a P or B slice whose list has a
    /// picture at collocated_ref_idx.
    pub temporal: bool,
    /// collocated_from_l0_flag.
    pub from_list_0: bool,
    /// PicOrderCntVal of the collocated picture.
    pub collocated_order: i32,
    /// How many places the unit's side has: 2^(CtbLog2SizeY - 2).
    pub side: u8,
    /// How many places of the picture are not left of the unit's first one.
    pub right: u32,
    /// How many places of the picture are not above the unit's first one.
    pub lower: u32,
}

//! The slice data of a planned picture as the standard says them (H.265 7.3.8.1, 9.3.1): what its parameter
//! sets and slice segment headers make of the definitions of spec_slice_data, and all coding tree units in order.
#![tactic(auto)]

mod laws;

pub use laws::{
    picture_is_its_segments, pictures_have_all_units, segments_end_where_the_next_begins,
    segments_share_out_the_units,
};
pub use spec_slice_headers::{
    InterFields, Payload, PicturePlan, SegmentPlan, SliceFields, SliceType, Substream,
};

//! The slice segment header (H.265 7.3.6, 7.4.7) and the substreams of slice segment data: definitions.
#![tactic(auto)]

mod laws;

pub use laws::{
    headers_are_spelled, places_are_found, ranges_hold_substreams, substreams_are_cuts,
    substreams_join,
};
pub use plan_types::{Payload, PicturePlan, SegmentPlan};
pub use slice_types::{InterFields, SliceFields, SliceType, Substream};

//! The motion of a picture as the standard says it (H.265 6.4.1, 8.5.3.2): by place, unit after unit, and what later
//! pictures take of it.
#![tactic(auto)]

mod laws;

pub use laws::candidates_stand_beneath;
pub use spec_picture_trees::{PicturePlan, SegmentPlan};

//! The motion of a coding tree unit (H.265 8.5.3.2): what is known beside it and in the collocated picture, and its
//! prediction units derived one after the other.
#![tactic(auto)]

mod fill;
mod items;
mod unit_motion;

pub use items::derive_motion;
pub use motion_candidates::{MotionView, part_block, reference_in};
pub use unit_motion::UnitMotion;

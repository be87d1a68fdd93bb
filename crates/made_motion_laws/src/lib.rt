//! Motion that is the same wherever there is some (H.265 8.5.3.2).
#![tactic(auto)]

mod laws;

pub use laws::{merging_keeps, predicting_keeps, units_keep_one_motion};

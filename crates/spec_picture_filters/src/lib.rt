//! What the loop filters of a picture need as the standard says it (H.265 8.7), gathered while its coding tree units
//! are read, and the picture's samples behind them.
#![tactic(auto)]

mod laws;

pub use laws::{motion_is_threaded, pictures_without_filters_keep_their_samples};
pub use spec_loop_filters::{FilterFormat, Place};

//! The motion of a prediction unit (H.265 8.5.3.2): by merging, or by a predicted vector and a difference.
#![tactic(auto)]

mod blocks;
mod candidates;
mod combining;
mod merging;
mod pointing;
mod predictors;
mod references;
mod sameness;
mod scaling;
mod spatial;
mod temporal;
mod unit_motion;
mod view;

pub use blocks::part_block;
pub use merging::merge;
pub use predictors::amvp;
pub use references::reference_in;
pub use unit_motion::derive;
pub use view::MotionView;

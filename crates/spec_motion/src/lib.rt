//! The motion of prediction units as the standard says it (H.265 8.5.3.2): by merging with candidates beside a block or
//! in another picture, or by a predicted vector and a difference.
#![tactic(auto)]

mod collocation;
mod laws;
mod pairs;
mod placement;
mod slice_motion;
mod vectors;

pub use collocation::{Collocated, CollocatedVector};
pub use ctu_records::{ComponentOffset, Item, Mv, PredictionUnit, Rectangle, Sao, Side};
pub use laws::{merge_lists_are_full, predictors_are_two, vectors_over_two_pictures_are_halved};
pub use pairs::COMBINED_PAIRS;
pub use placement::is_placed;
pub use slice_motion::SliceMotion;
pub use vectors::{Motion, Reference, Vector};

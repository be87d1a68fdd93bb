//! Builds the samples of a coding tree unit from what was read of it, its motion and the pictures that it refers to
//! (H.265 8.4.4.1, 8.5.3.3, 8.6).
#![tactic(auto)]

mod blocks;
mod coding;
mod edge;
mod extents;
mod intra_border;
mod items;
mod levels;
mod lines;
mod parameters;
mod place;
mod prediction_units;
mod pulses;
mod residuals;
mod scratch;
mod soundness;
mod source;
mod transform_units;
mod unit;
mod unit_samples;

pub use inter_samples::{RefWindow, UnitInter};
pub use scratch::Scratch;
pub use unit::build_ctu;
pub use unit_samples::UnitSamples;

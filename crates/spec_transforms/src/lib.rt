//! Scaling and transformation of residuals as the standard says them (8.6.2 to 8.6.4), with their tables.
#![tactic(auto)]

mod laws;
mod level_scale;
mod matrices;

pub use laws::matrices_are_cosines_and_sines;
pub use level_scale::LEVEL_SCALE;
pub use matrices::{COSINE_MATRIX, COSINES, SINE_MATRIX, SINES};

//! Residuals of a transform block from its levels (H.265 8.6.2 to 8.6.4).
#![tactic(auto)]

mod filled;
mod halves;
mod matrix;
mod products;
mod scaling;
mod skipping;
mod stages;

pub use halves::{even, odd};
pub use matrix::{Matrix, matrix_of};
pub use scaling::{Scaling, scale_level, scaling_of};
pub use skipping::skip;
pub use stages::inverse;

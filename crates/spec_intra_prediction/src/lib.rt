//! Intra prediction as the standard says it (8.4.4.2): the neighbours of a block, their substitution and filtering, and
//! the samples that each mode predicts from them.
#![tactic(auto)]

mod angles;
mod laws;

pub use angles::{INTRA_PRED_ANGLE, INVERSE_ANGLE, inverse_angle, pred_angle};
pub use laws::{angles_are_mirrored, inverse_angles_are_quotients};

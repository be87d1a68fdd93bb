//! Reconstruction of a coding tree unit as the standard says it (H.265 8.4.4.1, 8.5.3.3, 8.6.1, 8.6.2, 8.6.5): its
//! samples by what was read of it, by its motion and the pictures that it refers to, and by the samples that are known
//! beside it.
#![tactic(auto)]

mod format;
mod laws;
mod unit_mode;

pub use format::{ScalingFactors, UnitFormat};
pub use laws::chroma_parameters_are_held;
pub use spec_slice_data::chroma_qp_of_index;
pub use unit_mode::UnitMode;

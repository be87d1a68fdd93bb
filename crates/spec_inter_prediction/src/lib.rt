//! Inter prediction as the standard says it (8.5.3.3): samples between the samples of a reference picture, and how one
//! or two predictions become samples.
#![tactic(auto)]

mod laws;
mod tables;
mod weighting;

pub use block_geometry::needed_rows;
pub use laws::{
    filters_are_mirrored, filters_keep_equal_samples, luma_samples_depend_on_their_lines,
};
pub use tables::{ReferenceWeights, SliceWeighting, WeightTable};
pub use weighting::{Weight, Weighting, Weights};

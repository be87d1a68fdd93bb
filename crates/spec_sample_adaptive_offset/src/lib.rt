//! Sample adaptive offset as the standard says it (H.265 8.7.3): a sample of a component by the deblocked plane, the
//! parameters of its coding tree unit, and what its neighbours belong to.
#![tactic(auto)]

mod laws;
mod unit;

pub use laws::{
    bands_are_four_from_the_position, offset_samples_are_in_range,
    samples_depend_on_what_lies_beside_them, samples_without_offset_stay, unchanged_by_no_offset,
};
pub use unit::OffsetUnit;

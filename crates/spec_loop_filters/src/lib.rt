//! The samples of a picture behind its loop filters as the standard says them (H.265 8.7): deblocking, then sample
//! adaptive offset, of each component, by what is known of the picture's places and coding tree units.
#![tactic(auto)]

mod format;
mod laws;

pub use format::FilterFormat;
pub use laws::{filtered_samples_are_in_range, no_strength_and_no_offset_changes_nothing};
pub use spec_deblocking::{Place, Plane};

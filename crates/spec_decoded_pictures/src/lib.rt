//! Decoded pictures as the standard says them (H.265 8.1.3): built from what was read and from the pictures that they
//! refer to, and then filtered.
#![tactic(auto)]

mod laws;

pub use laws::{pictures_are_one_fold, pictures_without_filters_are_as_built};

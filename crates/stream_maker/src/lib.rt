//! Streams that are made of a seed.
#![tactic(auto)]

mod escaping;
mod headers;
mod output;
mod slices;
mod stream;

pub use output::{make, make_bent, make_flat};
pub use spec_made::{Bend, BendKind};

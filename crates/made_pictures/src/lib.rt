//! What is drawn of made pictures, and their samples.
#![tactic(auto)]

mod draws;
mod picture;
mod planes;

pub use draws::{inter_units, motion, pcm_units};
pub use picture::Picture;

//! The pictures that are drawn of a seed.
#![tactic(auto)]

mod drawing;
mod order;

pub use drawing::{Drawing, draw_pictures};
pub use order::shown_at;

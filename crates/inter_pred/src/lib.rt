//! Inter prediction of a block (8.5.3.3): its samples between those of a reference picture, and how one or two
//! predictions become samples.
#![tactic(auto)]

mod between;
mod block;
mod bytes;
mod down;
mod eight;
mod interpolation;
mod line;
mod prediction;
mod reference;
mod sample;
mod scratch;
mod single;
mod sums;
mod weighting;
mod whole;
mod width;
mod window;

pub use block::{PredictionBlock, chroma, luma};
pub use line::{clamped, held_line};
pub use prediction::Prediction;
pub use reference::{RefWindow, Window};
pub use scratch::Scratch;
pub use single::{chroma_one, luma_one};
pub use weighting::{weigh_one, weigh_two};

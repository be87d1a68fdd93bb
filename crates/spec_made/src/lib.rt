//! The streams that are made of a seed: what is drawn, and what is written of it (H.265 7.3, 9.3).
#![tactic(auto)]

mod bends;
mod units;

pub use bends::{Bend, BendKind};
pub use units::{InterUnit, Motion, PcmUnit, Shift};

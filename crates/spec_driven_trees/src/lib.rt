//! Trees that are written, answer by answer (H.265 7.3.8).
#![tactic(auto)]

mod laws;

pub use laws::{questions_are_spelled, units_are_spelled};

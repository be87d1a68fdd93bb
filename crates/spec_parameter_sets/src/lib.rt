//! The sequence and picture parameter sets (H.265 7.3.2, 7.4.3): definitions.
#![tactic(auto)]

mod laws;
mod levels;
mod tables;

pub use laws::{
    level_sides_are_greatest, parameter_sets_are_local, parameter_sets_are_spelled,
    scaling_lists_are_in_range,
};
pub use levels::Level;
pub use tables::{DEFAULT_INTER, DEFAULT_INTRA};

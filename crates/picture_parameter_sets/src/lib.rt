//! Reads picture parameter sets, and tells whether they agree with their sequence parameter sets (H.265 7.3.2.3,
//! 7.4.3.3).
#![tactic(auto)]

mod agreement;
mod pps;

pub use agreement::fits;
pub use param_sets::read_sps;
pub use pps::read_pps;

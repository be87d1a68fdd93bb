//! The fields of parameter sets and slice segment headers as lines of text (H.265 7.3.2.2, 7.3.2.3, 7.3.6), a
//! `name=value` a line.
#![tactic(auto)]

mod inter_lines;
mod lines;
mod pps_lines;
mod reference_lines;
mod set_lists;
mod slice_lines;
mod sps_lines;
mod weight_lines;

pub use pps_lines::print_pps;
pub use slice_lines::print_slice_segment;
pub use sps_lines::print_sps;

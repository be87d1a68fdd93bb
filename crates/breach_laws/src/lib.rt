//! Which rules slice segment data break (H.265 7.3.8, 9.3).
#![tactic(auto)]

mod laws;

pub use laws::slice_data_break_few_rules;

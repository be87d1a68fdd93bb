//! The numbers by which the rules on the data of slice segments are told (H.265 7.3.8).
#![tactic(auto)]

mod laws;
mod numbers;

pub use laws::rules_have_numbers;
pub use numbers::{breach_of, rule_number};

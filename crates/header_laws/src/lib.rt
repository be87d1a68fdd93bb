//! What is read of parameter sets and slice segment headers is in range (H.265 7.4.3, 7.4.7).
#![tactic(auto)]

mod laws;

pub use laws::{
    first_order_counts_are_in_range, headers_are_in_range, parameter_sets_are_in_range,
};

//! Headers that are written, field by field (H.265 7.2, 9.2).
#![tactic(auto)]

mod laws;

pub use laws::{fields_read_back, headers_read_back, parameter_sets_read_back};

//! Fields of headers and parameter sets, each with the rule that it breaks (H.265 7.2, 9.2).
#![tactic(auto)]

mod field_reader;

pub use field_reader::FieldReader;

//! Formats: what is asked of data one after the other, up to a value or the first rule broken, and the fields of
//! headers and parameter sets as such questions (H.265 7.2, 9.2): definitions, and the laws that bind reading, spelling
//! and writing.
#![tactic(auto)]

mod laws;

pub use laws::{fields_are_local, fields_are_spelled};

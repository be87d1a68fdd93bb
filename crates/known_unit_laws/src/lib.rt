//! Laws of the coding tree units of a picture by address: they are what reading the picture in order gives (H.265
//! 7.3.8.1, 9.3.1, 9.3.2).
#![tactic(auto)]

mod laws;

pub use laws::{units_are_known_as_read, units_are_read_by_those_before};

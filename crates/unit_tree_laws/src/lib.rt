//! Laws of reading the coding tree units of a picture: on what a unit's reading depends (H.265 6.4.1, 7.3.8.1, 9.3.1,
//! 9.3.2).
#![tactic(auto)]

mod laws;

pub use laws::{contexts_are_stored_behind_second_units, units_depend_on_those_beside_them};

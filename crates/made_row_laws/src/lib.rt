//! Rows of coding tree units of made pictures are read as what was drawn (H.265 7.3.8, 9.3).
#![tactic(auto)]

mod laws;
mod sizes;

pub use laws::{
    drawn_units_are_in_range, made_pictures_read_back, made_rows_are_spelled, made_rows_read_back,
    made_units_are_driven,
};
pub use sizes::rows_are_short;

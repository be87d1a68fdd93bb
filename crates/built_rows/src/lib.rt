//! Rows of coding tree units of a picture of a flight as jobs over a board: each unit is read, its motion derived, its
//! samples built, its words written, and it is counted (H.265 6.3.1, 6.4.1, 7.3.8, 8.4, 8.5, 8.6).
#![tactic(auto)]

mod above;
mod beginning;
mod filling;
mod finishing;
mod reaching;
mod reading;
mod row;
mod row_builder;
mod slices;
mod unit_motion;

pub use row::build_row;
pub use row_builder::RowBuilder;

//! Values by column and row, as those of the places of a picture or of its coding tree units.
#![tactic(auto)]

mod grid;

pub use grid::Grid;

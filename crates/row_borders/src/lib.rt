//! What a row of coding tree units keeps beside the unit that is built next (H.265 6.4.1): the line above the unit, the
//! column on its left and the motion beneath it, in memory of its own.
#![tactic(auto)]

mod beside;
mod border;
mod build;
mod keep;
mod laws;
mod strip;

pub use border::RowBorder;
pub use build::{derive_in_row, fill_in_row};
pub use laws::{
    borders_stand_beside_the_next_unit, laid_lines_go_on, laid_lines_stand_above,
    units_leave_what_is_above_them,
};
pub use unit_build::{
    Beside, BuiltUnit, Scratch, UnitSource, collocated_entry, pointing_motion, slice_motion,
};

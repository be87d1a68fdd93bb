//! Laws of locality: on how few places the motion and the samples of a coding tree unit depend (H.265 6.4.1, 8.4.4,
//! 8.5.3).
#![tactic(auto)]

mod laws;

pub use laws::{
    chroma_lines_lie_in_the_rows_of_luma, chroma_samples_depend_on_their_lines,
    known_motion_stands_beside, known_samples_stand_beside, laid_units_leave_others,
    motions_are_their_steps, places_beside_are_of_four_units, planned_sides_are_halved,
    samples_are_their_steps, units_are_their_steps, units_depend_on_the_rows_that_they_need,
    units_depend_on_what_they_refer_to,
};

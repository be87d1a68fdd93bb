//! Laws of locality of the loop filters: on how few places each of their steps depends (H.265 8.7).
#![tactic(auto)]

mod laws;

pub use laws::{
    horizontal_rows_depend_on_four_lines_beside_them, offset_rows_depend_on_one_line_beside_them,
    samples_are_filtered_in_three_steps, vertical_rows_depend_on_their_lines,
};

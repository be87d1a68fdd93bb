//! The loop filters of a row of coding tree blocks (H.265 8.7) over local memory: lines of the row, with those beside
//! it, become its lines behind vertical edges, behind horizontal edges, behind sample adaptive offset, or behind all
//! three.
#![tactic(auto)]

mod edges;
mod lines;
mod offsets;
mod row_places;
mod row_steps;
mod slice_places;

pub use edges::{horizontal_lines, vertical_lines};
pub use offsets::offset_lines;
pub use row_places::RowPlaces;
pub use row_steps::final_lines;
pub use slice_places::{place_of, qp_y};

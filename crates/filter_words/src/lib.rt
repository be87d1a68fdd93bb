//! What the loop filters of a row of coding tree blocks ask of its places and units and of those beside it (H.265
//! 8.7.2, 8.7.3), out of the words of the coding tree units of a flight on a board.
#![tactic(auto)]

mod laws;
mod line_offsets;
mod line_places;
mod placed_unit;
mod row_offsets;
mod row_places;
mod rows_beside;
mod segment_places;
mod unit_offsets;
mod unit_places;
mod word_places;

pub use laws::filter_places_come_back;
pub use line_offsets::lay_line_offsets;
pub use line_places::lay_line_places;
pub use row_offsets::lay_row_units;
pub use row_places::lay_row_places;
pub use unit_offsets::lay_unit_offsets;
pub use unit_places::lay_unit_places;

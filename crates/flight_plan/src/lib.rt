//! What a flight of pictures is to do: the pictures that are decoded together, the rows that each waits for, and the
//! units at which a rule is broken.
#![tactic(auto)]

mod plan;
mod row_range;

pub use plan::{FlightPicture, FlightPlan, MAX_FLIGHT_PICTURES, MAX_SIDE_IN_CTBS};
pub use row_range::{Reference, RowRange, RowRanges};

//! Waiting for what the units of a flight need: the row above, the collocated picture's row, final rows of reference
//! pictures, and the rows that a loop filter reads (H.265 6.3.1, 8.5.3.2.8, 8.5.3.3, 8.7).
#![tactic(auto)]

mod frame;
mod laws;
mod waits;

pub use flight_facts::{FlightFacts, References, common_format};
pub use frame::flight_frame;
pub use laws::{frames_need_what_their_flights_need, needs_of_coding_tree_units_are_seen};
pub use waits::{
    wait_for_built_rows, wait_for_collocated_row, wait_for_final_rows, wait_to_filter, wait_to_read,
};

//! Rows of coding tree blocks in the phases of the loop filters (H.265 8.7.2, 8.7.3) over a board: each waits for what
//! its phase needs and is counted. In the last phase a row is read as it is built, out of its words and those of the
//! rows beside it, filtered in local memory, and written into its own words.
#![tactic(auto)]

mod around;
mod components;
mod final_row;
mod memory;
mod row_lines;
mod rows;
mod waiting;

pub use around::read_rows_around;
pub use components::final_component;
pub use flight_waits::{FlightFacts, References};
pub use memory::FilterMemory;
pub use rows::filter_row;

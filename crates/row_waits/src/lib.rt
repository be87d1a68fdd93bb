//! What rows of coding tree units of pictures of a flight, as jobs over its board, wait for and take from other
//! rows: the collocated picture's row, the final rows of reference pictures that vectors reach, and what goes on
//! from the row above (H.265 8.5.3.2.8, 8.5.3.3, 9.3.1, 9.3.2).
#![tactic(auto)]

mod carried;
mod collocated;
mod laws;
mod picture_view;
mod reach;

pub use carried::{read_carry, read_stored};
pub use collocated::wait_for_collocated;
pub use flight_waits::{common_format, flight_frame};
pub use flight_windows::{FlightWindows, KnownPass, SeenRows};
pub use laws::{
    collocated_rows_are_told, items_reach_what_their_flight_tells,
    seen_reach_meets_the_needs_of_a_unit,
};
pub use picture_view::PictureView;
pub use reach::wait_for_reach;
pub use row_trees::{RowReader, filter_format, sound_units_are_read_by};
pub use unit_reach::ReachSource;

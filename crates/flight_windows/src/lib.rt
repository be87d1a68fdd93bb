//! The reference pictures of a picture of a flight, as inter prediction sees them (H.265 8.5.3.3.3): those that were
//! decoded before the flight out of planes, those of the flight out of the words of their final rows.
#![tactic(auto)]

mod final_lines;
mod final_rows;
mod flight_window;
mod greatest;
mod known_pass;
mod laws;
mod nothing;
mod places;
mod reference;
mod row_places;
mod seen_rows;
mod spans;
mod windows;

pub use known_pass::KnownPass;
pub use laws::{bases_are_held_pictures, seen_pictures_agree, seen_rows_stay_seen};
pub use seen_rows::SeenRows;
pub use windows::FlightWindows;

//! Flights of pictures over a board: what their units need, what their words are to hold, and where decoding stops by
//! what the board holds when all is done.
#![tactic(auto)]

mod flight_facts;
mod laws;
mod meant;
mod rows;

pub use flight_facts::FlightFacts;
pub use flight_unit_laws::{
    decoded_samples_are_of_the_last_phase, names_stand_for_the_pictures_of_the_buffer,
};
pub use laws::{
    boards_show_the_flight, closed_boards_hold_the_pictures, flights_depend_on_decoded_pictures,
    flights_lie_on_boards, pictures_have_the_sizes_of_their_flight,
};
pub use picture_build::{References, build_picture, common_format, picture_parts, set_slice};
pub use picture_plan::Flight;

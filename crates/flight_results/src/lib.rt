//! What a flight of pictures is decoded to, by what its board holds when all is done: the pictures of sequential
//! decoding before the first in which a rule is broken, and that rule (H.265 8.1.3, C.5.2.3).
#![tactic(auto)]

mod fault;
mod laws;

pub use fault::{FlightStop, stop_of};
pub use laws::{
    closed_boards_tell_where_decoding_stops, flights_are_decoded_in_order,
    held_pictures_are_decoded, least_bad_units_are_told,
};

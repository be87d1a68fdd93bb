//! Whether a flight is in range, so that its values have room in words: each picture is planned as one of a stream is,
//! and the motion of the pictures before it has vectors that may be (H.265 7.4.7, 8.3.4, 8.5.3.2).
#![tactic(auto)]

mod flights;
mod motions;
mod plans;

pub use flight_facts::{
    Flight, FlightFacts, build_picture, closed_boards_hold_the_pictures, flights_lie_on_boards,
    picture_parts,
};
pub use flights::is_in_range;

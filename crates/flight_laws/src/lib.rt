//! Laws of flights: what the pictures that are decoded together hold over a stream of units (H.265 8.1).
#![tactic(auto)]

mod laws;

pub use laws::{
    flights_are_in_range, flights_are_maximal, flights_are_of_one_set, flights_are_the_pictures,
    flights_so_far_are_the_pictures, halted_flights_are_the_pictures, stops_are_for_good,
};

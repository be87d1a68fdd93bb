//! The pictures of the decoded picture buffer before each picture of a flight, by name (H.265 8.3.2, C.5.2.2): what the
//! places of its reference picture lists stand for while the flight is decoded.
#![tactic(auto)]

mod buffer_names;
mod flight_names;
mod laws;

pub use buffer_names::BufferNames;
pub use flight_names::FlightNames;
pub use laws::names_are_of_the_flight;

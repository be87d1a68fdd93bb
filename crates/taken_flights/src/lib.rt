//! The decoded pictures of a flight out of the words of its board, in shares that threads take side by side.
#![tactic(auto)]

mod fan;
mod laws;
mod pairs;
mod shares;

pub use fan::{Taken, take_pictures};
pub use laws::decoding_stops_where_taking_stops;

//! Writes the words of a coding tree unit whose work is done to the board of its flight, and counts it (H.265 6.3.1,
//! 6.4.1).
#![tactic(auto)]

mod finishing;
mod laws;
mod places;
mod samples;
mod tail;
mod writing;

pub use finishing::{finish_unit, write_unit};
pub use flight_waits::wait_to_read;
pub use laws::{met_needs_are_seen_uses, met_needs_are_sound_uses};

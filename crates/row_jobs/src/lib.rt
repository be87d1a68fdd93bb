//! Decodes a flight, pictures of one sequence parameter set that are decoded together (H.265 8.1.3, C.5.2): those
//! before the first in which a rule is broken, and that rule.
#![tactic(auto)]

mod board;
mod buffer;
mod flight;
mod parts;
mod picture;
mod result;
mod spares;

pub use board::have_row_substreams;
pub use flight::{run_flight, run_picture};
pub use result::FlightResult;
pub use spares::Spares;

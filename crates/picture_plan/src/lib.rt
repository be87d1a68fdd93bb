//! Plans the pictures of a stream: which units make a picture, in which order pictures come, what each refers to, and
//! which are decoded together (H.265 7.4.2.4.4, 8.1, 8.3).
#![tactic(auto)]

mod change;
mod ending;
mod flight;
mod former;
mod gathering;
mod hashes;
mod planner;
mod slices;
mod state;
mod step;
mod unit_kinds;
mod units;

pub use flight::{Flight, Flights};
pub use planner::{Planned, Planner};

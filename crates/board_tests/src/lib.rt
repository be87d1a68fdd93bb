//! Made-up flights over a board: rows of units that add up what they read, some of which break a rule, by several
//! threads.
#![tactic(auto)]

mod flight;
mod hand;
mod meant;
mod worker;

pub use flight::{Meant, Sums};
pub use hand::{Hand, Stand, Turn};
pub use worker::{Worker, place_of, sums};

#[cfg(test)]
mod tests;

//! The scaling factors of transform blocks (H.265 7.4.5).
#![tactic(auto)]

mod block;
mod table;

pub use table::{flat_factors, listed_factors};

//! The rows of reference pictures that the samples of a coding tree unit are predicted from, by its derived motion
//! (H.265 8.5.3.3).
#![tactic(auto)]

mod reach;

pub use reach::{ItemReach, ReachSource, item_reach};

//! The coding tree units of streams that are made are those drawn (H.265 7.3, 9.3).
#![tactic(auto)]

mod laws;

pub use laws::made_streams_hold_their_units;

//! What is planned of a stream is in range (H.265 7.4.7, 7.4.2.4.4).
#![tactic(auto)]

mod laws;

pub use laws::plans_are_in_range;

//! The samples of a picture, before its loop filters and behind them, are in the range of their bit depth
//! (H.265 8.4.4.2, 8.5.3.3.4, 8.6.5, 8.7).
#![tactic(auto)]

mod laws;
mod written;

pub use laws::{
    built_samples_are_in_range, decoded_samples_are_in_range, references_in_range_are_not_held,
};
pub use unit_laws::units_that_are_read_are_sound;
pub use written::samples_in_range_go_out_whole;

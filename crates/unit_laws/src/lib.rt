//! What is read of a picture's coding tree units is in the ranges for which their samples are told (H.265 7.3.8, 7.4.9,
//! 8.4.2, 8.4.3, 8.6.1), and comes in the order by which places are available (6.4.1, 6.5.2).
#![tactic(auto)]

mod laws;

pub use laws::{
    availability_is_by_scan_order, coding_units_are_in_scan_order,
    parts_are_available_as_they_are_laid, units_that_are_read_are_sound,
};

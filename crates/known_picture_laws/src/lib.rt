//! Laws of pictures by those of their coding tree units that are known: each unit is the step of what it is read and
//! decoded from, and sequential decoding gives the same picture or stops at its first bad unit (H.265 7.3.8.1, 8.5.3,
//! 8.6.5, 8.7).
#![tactic(auto)]

mod laws;

pub use laws::{
    decoded_samples_are_of_the_last_phase, known_units_are_decoded_by_steps,
    known_units_are_in_order, known_units_have_segments, pictures_are_decoded_as_known,
    units_are_read_by_what_is_left,
};

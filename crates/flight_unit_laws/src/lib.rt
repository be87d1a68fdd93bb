//! Laws of flights: which of their units are sound, where their decoding stops, and that each unit is made from what it
//! uses (H.265 8.1.3, 8.5.3, 8.7).
#![tactic(auto)]

mod laws;

pub use known_picture_laws::decoded_samples_are_of_the_last_phase;
pub use laws::{
    filter_rows_are_made_from_what_they_use, known_units_are_built_from_what_they_use,
    least_bad_units_stop_decoding, names_stand_for_the_pictures_of_the_buffer,
    planned_flights_are_in_range, units_are_sound_where_needs_are,
};

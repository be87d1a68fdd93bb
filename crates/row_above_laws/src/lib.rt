//! Laws of the words of the row above: what is taken out of them is what its units leave to those below (H.265 6.4.1,
//! 6.4.2, 8.4.2, 8.5.3.2).
#![tactic(auto)]

mod laws;

pub use flight_value_laws::{references_come_back, values_fit_their_words};
pub use laws::{
    expected_words_are_of_their_places, places_are_intra_or_have_motion,
    words_above_are_of_their_units,
};
pub use unit_words::{DoneUnit, Edge, pointing_motion, slice_motion, unpack_bottom, unpack_place};

//! Laws of the values of flights: that a coding tree unit is read from the units that it uses, over what these leave,
//! that the values of pictures fit the words that have them, and that they come back from these (H.265 7.3.8.1, 8.5.3,
//! 8.6, 8.7, 9.3.1, 9.3.2).
#![tactic(auto)]

mod laws;

pub use known_picture_laws::pictures_are_decoded_as_known;
pub use laws::{
    contexts_come_back, decoded_motion_fits, references_come_back, sides_come_back,
    units_are_read_from_what_they_use, units_over_their_edges_are_known, values_fit_their_words,
};

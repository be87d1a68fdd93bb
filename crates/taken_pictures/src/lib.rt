//! Decoded pictures of a flight out of the words of a board, into the planes and the motion fields that later pictures
//! refer to (H.265 8.1.3, 8.5.3, 8.7).
#![tactic(auto)]

mod kept_places;
mod laws;
mod picture_lines;
mod place_rows;
mod place_words;
mod reading;
mod row_motion;
mod row_samples;
mod seen_rows;
mod whole_pictures;

pub use row_motion::take_row_motion;
pub use row_samples::take_row_samples;
pub use sample_lines::FlightFacts;
pub use seen_rows::see_picture;
pub use whole_pictures::{take_motion, take_picture, take_samples};

//! Laws of streams that come in pieces: where their pictures are closed, and how few are held (H.265 8.1, C.5.2).
#![tactic(auto)]

mod laws;

pub use laws::{
    closings_stand_in_the_trail, kept_places_are_few, pictures_keep_few, units_leave_few_pending,
};

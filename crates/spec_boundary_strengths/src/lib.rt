//! Boundary filtering strengths as the standard says them (H.265 8.7.2.2 to 8.7.2.4): which edges of a coding tree unit
//! are filtered, and how strong, by what was read of it and its motion.
#![tactic(auto)]

mod laws;
mod place;
mod vectors;

pub use laws::{
    equal_motion_has_no_strength, intra_edges_are_strong, parts_meet_with_strength_one,
    strengths_are_symmetric, vectors_are_compared_by_picture,
};
pub use picture_buffer::{PlaceMotion, PlaceVector};
pub use place::UnitPlace;
pub use vectors::Vectors;

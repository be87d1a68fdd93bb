//! The pictures that later pictures refer to (H.265 6.2, 8.5.3.2, C.5.2): of each its format, its samples, three planes
//! of 16 bits a sample, and its motion.
#![tactic(auto)]

mod bases;
mod motion_field;
mod own_field;
mod packed;
mod packed_field;
mod picture;
mod place_motion;
mod plane;
mod planes;
mod shared_picture;
mod targets;

pub use bases::Bases;
pub use motion_field::MotionField;
pub use picture::Picture;
pub use place_motion::{PlaceMotion, PlaceVector};
pub use planes::Planes;
pub use shared_picture::SharedPicture;

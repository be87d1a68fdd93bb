//! The motion of a picture, unit after unit (H.265 6.4.1, 8.5.3.2): what is known beside a coding tree unit and beneath
//! it in the collocated picture, and its motion laid into that of the picture.
#![tactic(auto)]

mod beneath;
mod beside;
mod picture;
mod pointing;
mod slice;
mod unit_lines;
mod view;

pub use beneath::gather_beneath;
pub use beside::gather_beside;
pub use ctu_motion::{MotionView, UnitMotion, derive_motion};
pub use picture::PictureMotion;
pub use picture_buffer::PlaceMotion;
pub use picture_layout::CodingTreeUnit;
pub use pointing::pointing_motion;
pub use slice::{collocated_entry, slice_motion};
pub use unit_lines::lay_unit;
pub use view::{MotionBeneath, MotionBeside};

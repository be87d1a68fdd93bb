//! The boundary filtering strengths of a coding tree unit (H.265 8.7.2.2 to 8.7.2.4), and what else deblocking asks of
//! its places.
#![tactic(auto)]

mod apart;
mod edges;
mod laying;
mod marks;
mod motions;
mod places;
mod sides;

pub use apart::motion_strength;
pub use motions::PlaceMotions;
pub use places::unit_places;
pub use sides::UnitSides;
pub use spec_boundary_strengths::UnitPlace;

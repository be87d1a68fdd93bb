//! The loop filters of a picture (H.265 8.7): in the plane of each component the edges of each row of coding tree
//! blocks are filtered, and then offsets are added to the row above, by what is known of the picture's places and
//! units.
#![tactic(auto)]

mod component;
mod copying;
mod edges;
mod joining;
mod offsets;
mod picture;
mod rows;
mod scratch;
mod view;

pub use component::{Component, component_of};
pub use deblock::PlaceView;
pub use edges::filter_edges;
pub use offsets::offset_lines;
pub use picture::filter_picture;
pub use rows::filter_rows;
pub use scratch::FilterScratch;
pub use view::FilterView;

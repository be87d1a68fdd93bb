//! Reads a coding tree unit of a planned picture by itself, over what the unit on its left and the one above it leave
//! (H.265 7.3.8.1, 9.3.1, 9.3.2).
#![tactic(auto)]

mod edges;
mod laws;
mod segment;
mod segment_data;
mod slice_syntax;
mod units;
mod view;

pub use coding_quadtree::{BinReader, Contexts, Interval, Levels};
pub use edges::Edge;
pub use laws::units_over_edges_are_the_next_step;
pub use picture_layout::{CodingTreeUnit, Layout, address_of, slice_address, slice_of};
pub use segment_data::SegmentData;
pub use units::UnitReader;

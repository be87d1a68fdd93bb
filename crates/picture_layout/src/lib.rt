//! A planned picture by coding tree units and places (H.265 6.3.1, 6.4.1, 7.4.7.1).
#![tactic(auto)]

mod block;
mod coding_tree_unit;
mod layout;
mod segments;

pub use block::PlaceBlock;
pub use coding_tree_unit::CodingTreeUnit;
pub use layout::Layout;
pub use segments::{address_of, slice_address, slice_of};

//! Reads all coding tree units of a planned picture in order (H.265 7.3.8.1, 9.3.1), on one thread, each
//! over what the units beside it leave.
#![tactic(auto)]

mod beside;
mod picture;
mod trees;
mod units;

pub use picture::read_picture;
pub use trees::{ReadError, Trees};
pub use unit_trees::{CodingTreeUnit, Layout, slice_address, slice_of};

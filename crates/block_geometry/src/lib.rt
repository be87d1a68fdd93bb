//! Where the blocks of a picture lie, what they read around them, and the orders of the places inside them.
#![tactic(auto)]

mod availability;
mod coding_tree_blocks;
mod diagonal;
mod kind;
mod order;
mod reached_rows;

pub use availability::{SliceArea, available};
pub use coding_tree_blocks::each_unit_has_one_place;
pub use kind::Scan;
pub use order::{scan, scan_index};
pub use reached_rows::needed_rows;

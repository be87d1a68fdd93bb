//! Readers of the transform tree of a coding unit (H.265 7.3.8.8, 7.3.8.10, 7.3.8.11, 8.6.1), each of which gives what
//! its format in spec_slice_data reads, or the first rule broken.
#![tactic(auto)]

mod coded_block;
mod node;
mod quantization;
mod quarters;
mod sign;
mod transform_unit;
mod tree;

pub use quantization::begin_group;
pub use quarters::{lower_left, lower_right, upper_left, upper_right};
pub use residual_syntax::{BinReader, Contexts, Interval, Levels};
pub use sign::signed;
pub use tree::unit_tree;

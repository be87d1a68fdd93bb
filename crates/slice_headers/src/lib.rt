//! Reads slice segment headers (H.265 7.3.6.1, 7.4.7.1), and cuts slice segment data into substreams.
#![tactic(auto)]

mod entry_points;
mod named_sets;
mod segment_header;
mod segment_start;

pub use entry_points::{data_size, substreams};
pub use picture_parameter_sets::{read_pps, read_sps};
pub use segment_header::read_slice_header;

//! Reads sequence parameter sets and scaling lists (H.265 7.3.2.2, 7.3.4, 7.4.3.2, 7.4.5).
#![tactic(auto)]

mod block_sizes;
mod level;
mod picture_format;
mod picture_scaling;
mod profile;
mod reference_sets;
mod scaling;
mod sps;
mod sub_layers;

pub use header_fields::FieldReader;
pub use picture_scaling::{default_scaling_lists, picture_scaling_lists};
pub use scaling::{read_scaling_list_data, read_scaling_lists};
pub use sps::read_sps;

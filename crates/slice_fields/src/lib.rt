//! Reads the fields of a slice (H.265 7.3.6.1 to 7.3.6.3, 7.4.7.1 to 7.4.7.3).
#![tactic(auto)]

mod context;
mod inter_fields;
mod reference_rules;
mod references;
mod slice;
mod weights;

pub use context::{
    SegmentContext, SliceSets, ceil_log2, first_of, flag_or, last_address, no_rasl_output_flag,
    slice_header, ue_or,
};
pub use header_fields::FieldReader;
pub use ref_picture_sets::is_irap;
pub use slice::{kind_of, read_slice_fields};

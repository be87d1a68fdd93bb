//! Slice segment data as the standard says them (H.265 7.3.8, 8.4.2, 8.4.3, 8.6.1, 9.3): the elements of a coding tree
//! unit in reading order, and what follows them. Each element is a format over bins.
#![tactic(auto)]

mod chroma_parameter;
mod laws;
mod modes;
mod syntax;

pub use chroma_parameter::chroma_qp_of_index;
pub use laws::{
    chroma_parameters_are_tabled, coding_tree_unit_is_spelled, slice_segment_data_are_spelled,
};
pub use modes::Candidates;
pub use syntax::{
    ChromaFlags, CtuSyntax, End, InterSyntax, PcmSyntax, TransformBlock, UnitStart, UnitSyntax,
};

//! Deblocking as the standard says it where the boundary filtering strengths are given (8.7.2.5): which edges are
//! filtered and how, and the samples of a plane behind it.
#![tactic(auto)]

mod laws;
mod line;
mod place;
mod tables;

pub use laws::{
    no_strength_changes_nothing, rows_read_their_lines_and_four_beside, step_is_smoothed,
};
pub use line::{Filter, Line};
pub use place::{Place, Plane};
pub use spec_slice_data::chroma_qp_of_index;
pub use tables::{BETA, TC};

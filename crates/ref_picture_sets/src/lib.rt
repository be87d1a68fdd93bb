//! Reads short-term reference picture sets, and derives picture order counts, reference picture sets and lists
//! (H.265 7.3.7, 7.4.8, 8.3).
#![tactic(auto)]

mod long_term;
mod picture_order_count;
mod reference_lists;
mod reference_picture_set;
mod search;
mod short_term;
mod short_term_explicit;
mod short_term_places;
mod short_term_predicted;

pub use picture_order_count::{begins_anew, is_idr, is_irap, poc_of};
pub use reference_lists::build_lists;
pub use reference_picture_set::{derive_rps, num_pic_total_curr};
pub use short_term::read_st_rps;

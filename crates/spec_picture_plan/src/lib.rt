//! The pictures of a stream of NAL units (H.265 7.4.2.4.4, 8.1, 8.3), up to the first broken rule or limit:
//! definitions.
#![tactic(auto)]

mod laws;
mod unit_kind;

pub use laws::{accepted_headers_open_pictures, fronts_stay, segments_are_grouped_to_pictures};
pub use unit_kind::UnitKind;

//! Deblocking of a row of coding tree blocks where the boundary filtering strengths are given (8.7.2.5): vertical edges
//! over decoded samples, then horizontal edges over what that gives.
#![tactic(auto)]

mod columns;
mod decision;
mod edge;
mod filters;
mod four;
mod lanes;
mod pairs;
mod pass;
mod row;
mod thresholds;
mod view;
mod window;

pub use row::{Row, horizontal_row, vertical_row};
pub use view::PlaceView;

//! The samples of prediction units by their motion (H.265 8.5.3.3): one or two predictions of a block from the pictures
//! that its vectors point to, weighted.
#![tactic(auto)]

mod component;
mod inter;
mod lists;
mod place;
mod scratch;
mod weights;

pub use component::predict;
pub use inter::UnitInter;
pub use inter_pred::RefWindow;
pub use place::samples_of_place;
pub use scratch::InterScratch;

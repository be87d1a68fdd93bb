//! A coding tree unit's work over a view (H.265 6.4.1, 8.4.4.1, 8.5.3, 8.6, 8.7.2): its motion, its samples and what it
//! gives the loop filters, in values of its own, from what stands beside it and from the pictures that it refers to.
#![tactic(auto)]

mod beside;
mod built;
mod coded;
mod motion;
mod near;
mod part;
mod samples;
mod unit;
mod view;
mod weights;

pub use built::BuiltUnit;
pub use ctu_build::{Scratch, UnitSamples};
pub use part::Part;
pub use picture_filters::{FilterScratch, PictureFilters, UnitFilters, filter_format};
pub use picture_motion::{
    MotionBeneath, MotionBeside, MotionView, UnitMotion, collocated_entry, lay_unit,
    pointing_motion, slice_motion,
};
pub use unit::{UnitSource, build_unit, derive_unit, fill_unit};
pub use view::Beside;

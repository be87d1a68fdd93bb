//! What the loop filters of a picture need, unit after unit (H.265 8.7): what is known beside a coding tree unit, and
//! its places and offsets laid into those of the picture. By these the picture's samples are taken through the filters.
#![tactic(auto)]

mod beside;
mod filter_place;
mod format;
mod given;
mod layers;
mod offsets;
mod picture;
mod place_field;
mod planned;
mod unit_rows;
mod view;

pub use boundary_strengths::PlaceMotions;
pub use format::filter_format;
pub use given::{CodedBeside, UnitFilters, unit_filters};
pub use loop_filters::FilterScratch;
pub use picture::PictureFilters;
pub use plan_types::{PicturePlan, SegmentPlan};

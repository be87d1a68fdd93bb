//! What stands above a coding tree unit, and the motion of the collocated picture beneath it, out of the words of a
//! board into a row's border (H.265 6.4.1, 8.5.3.2.8, 8.7.2.4).
#![tactic(auto)]

mod above_row;
mod beneath;
mod field_blocks;
mod kept_places;
mod laws;
mod lowest_lines;
mod lowest_places;
mod picture_blocks;
mod place_words;
mod places_above;
mod reading;
mod reference_pictures;
mod tree_units;
mod unit_above;
mod unit_blocks;

pub use above_row::lay_above;
pub use beneath::lay_beneath;
pub use reference_pictures::ReferencePictures;
pub use row_above_laws::{DoneUnit, Edge};
pub use row_borders::{BuiltUnit, RowBorder, Scratch, UnitSource, derive_in_row, fill_in_row};
pub use sample_lines::{FlightFacts, set_slice};
pub use unit_above::UnitAbove;

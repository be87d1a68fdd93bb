//! Readers of the elements of a coding tree unit (H.265 7.3.8), each of which gives what its format in spec_slice_data
//! reads, or the first rule broken.
#![tactic(auto)]

mod beside;
mod bins;
mod ctu;
mod ends;
mod judge;
mod laws;
mod modes;
mod motion;
mod offset;
mod part_mode;
mod quadtree;
mod squares;
mod unit;
mod unit_place;
mod unit_start;
mod vectors;

pub use ctu::read_ctu;
pub use ends::unit_end;
pub use judge::judge_end;
pub use laws::unit_is_the_next_step;
pub use offset::sao;
pub use quadtree::{coding_quadtree, coding_tree_unit};
pub use transform_tree::{BinReader, Contexts, Interval, Levels};
pub use unit_place::UnitPlace;

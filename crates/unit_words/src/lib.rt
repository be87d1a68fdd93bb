//! Packs what a coding tree unit's work leaves, and lines of samples, into words that threads share, and takes out of
//! such words what the units beside them ask (H.265 6.3, 8.5.3, 8.7, 9.3).
#![tactic(auto)]

mod carried;
mod done_unit;
mod halves;
mod laws;
mod lines;
mod octets;
mod unit_above;
mod unit_lines;
mod unit_places;

pub use carried::{readers_may_be_resumed, resume_reader, unpack_carry, unpack_contexts};
pub use done_unit::DoneUnit;
pub use laws::contents_stand_at_their_words;
pub use lines::{pack_line, unpack_line};
pub use unit_above::{KnownPlace, unpack_bottom, unpack_place};
pub use unit_build::{collocated_entry, filter_format, pointing_motion, slice_motion};
pub use unit_trees::{Edge, Layout, Levels, SegmentData, UnitReader, address_of, slice_of};

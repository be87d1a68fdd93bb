//! How a flight of pictures lies in words of 64 bits that threads share: which word has which samples, motion and modes
//! of which unit of work, and how values are packed into words and taken out again.
#![tactic(auto)]

mod board;
mod carry;
mod laws;
mod modes;
mod offsets;
mod samples;
mod sizes;
mod unit_content;
mod unit_shape;
mod unit_word;
mod vectors;

pub use board::Layout;
pub use carry::Carry;
pub use laws::{
    each_content_has_one_word, each_word_has_one_owner, motion_is_unpacked, offsets_are_unpacked,
    samples_are_unpacked, words_are_few,
};
pub use modes::{PlaceModes, pack_modes, unpack_modes};
pub use offsets::{pack_offsets, unpack_offsets};
pub use sizes::FlightSizes;
pub use unit_content::UnitContent;
pub use unit_shape::UnitShape;
pub use unit_word::{UnitWord, WordOwner};
pub use vectors::{pack_vectors, unpack_motion};

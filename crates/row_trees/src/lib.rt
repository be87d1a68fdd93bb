//! Reads the coding tree units of a row from the left to the right, each over what the units beside it leave (H.265
//! 7.3.8.1, 9.3.1, 9.3.2).
#![tactic(auto)]

mod carried;
mod laws;
mod row_reader;
mod segments;

pub use flight_value_laws::pictures_are_decoded_as_known;
pub use laws::sound_units_are_read_by;
pub use row_reader::RowReader;
pub use segments::RowSegments;
pub use unit_words::{collocated_entry, filter_format, slice_of, unpack_carry, unpack_contexts};

//! Lines of samples of the units of a flight, in and out of the words of a board.
#![tactic(auto)]

mod built_lines;
mod laws;
mod laying;
mod packing;
mod samples;
mod shapes;
mod whole_lines;
mod words;
mod writing;

pub use built_lines::read_built_lines;
pub use flight_facts::{
    FlightFacts, decoded_samples_are_of_the_last_phase, names_stand_for_the_pictures_of_the_buffer,
    pictures_have_the_sizes_of_their_flight, set_slice,
};
pub use laws::components_follow_one_another;
pub use samples::read_samples;
pub use whole_lines::read_lines;
pub use writing::write_lines;

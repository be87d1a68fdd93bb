//! Flights over a board: the lines, units and words of a flight of rows by the numbers that a board has for them.
#![tactic(auto)]

mod laws;
mod line_numbers;
mod numbered_needs;

pub use laws::{
    boards_show_states_of_the_core, closed_boards_hold_the_flight, flights_are_laid,
    needs_are_needs, rules_are_lawful, units_have_one_number, words_have_one_layout,
};
pub use line_numbers::{line_number, line_of_number, unit_number};
pub use numbered_needs::{need_at, needs_to_count, needs_to_read};

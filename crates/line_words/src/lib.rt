//! The words of the lines of a flight over a board, run by run, in terms of lines, units and needs of the flight.
#![tactic(auto)]

mod counting;
mod draws;
mod laws;
mod row_facts;
mod runs;
mod unit_place;
mod waits;

pub use counting::{count_unit, find_bad};
pub use draws::draw_line;
pub use laws::{needs_name_other_lines, needs_stay_met, waits_keep_units_sound};
pub use row_facts::RowFacts;
pub use runs::{read_run, write_run};
pub use unit_place::UnitPlace;
pub use waits::wait_for;

//! What must be counted before a unit is, with lines by number.

ghost use Rattle.std.specs.Prelude.{◌≡◌, slice_get};
ghost use Rattle.hv_base.specs.declared.line.Phase.TheVariants.{B};
ghost use Rattle.board_core.specs.Needs.{read_needs, unit_needs};
ghost use Rattle.board_core.specs.Places.{IsLine};
ghost use Rattle.sample_words.specs.declared.sizes.FlightSizes.{FlightSizes};
ghost use Rattle.flight_lines.specs.Flights.{IsSized};
ghost use Rattle.flight_lines.specs.Numbers.{AreOfFlight, numbered_needs};

use crate::line_numbers::line_number;
use board_core::{Event, Needs, needs};
use flight_plan::FlightPlan;
use hv_base::{Line, Phase};
use sample_words::Layout;

/// What a unit of a line needs to be counted.
#[tactic(auto, using(crate::proofs::Needed::unit_of_flight))]
pub fn needs_to_count<'a>(plan: &'a FlightPlan, line: Line, unit: u32) -> Needs<'a>
    requires { IsLine plan.now line }
    ensures value { result ≡ unit_needs plan.now line unit }
    ensures lines { (s : FlightSizes) → IsSized plan.now s → AreOfFlight s result }
{
    needs_of_unit(plan, line, unit)
}

/// What a unit of a line needs, by its phase.
fn needs_of_unit<'a>(plan: &'a FlightPlan, line: Line, unit: u32) -> Needs<'a>
    ensures { result ≡ unit_needs plan.now line unit }
{
    match line.phase {
        Phase::B => needs(plan, Event::Build(line, unit)),
        Phase::V => needs(plan, Event::Filter(line)),
        Phase::H => needs(plan, Event::Filter(line)),
        Phase::S => needs(plan, Event::Filter(line)),
    }
}

/// What a coding tree unit of a line needs to be read.
#[tactic(auto, using(crate::proofs::Needed::read_of_flight))]
pub fn needs_to_read<'a>(plan: &'a FlightPlan, line: Line, unit: u32) -> Needs<'a>
    requires { IsLine plan.now line }
    ensures value { result ≡ read_needs plan.now line unit }
    ensures lines { (s : FlightSizes) → IsSized plan.now s → AreOfFlight s result }
{
    needs(plan, Event::Read(line, unit))
}

/// The need at an index, as the number of a line and the count that it must have reached. `None` exactly past the last.
pub fn need_at(layout: &Layout, needs: &Needs<'_>, index: usize) -> Option<(usize, u64)>
    requires { AreOfFlight layout.now needs.now }
    ensures { result ≡ slice_get (numbered_needs layout.now needs.now) index }
{
    match needs.get(index) {
        Some((line, count)) => Some((line_number(layout, line), count)),
        None => None,
    }
}

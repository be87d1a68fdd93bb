//! The places of a row of coding tree units.

ghost use Rattle.std.specs.Prelude.{◌≡◌, ◌<◌, ◌≤◌, ◌/◌, Some, slice_get};
ghost use Rattle.sample_words.specs.Sizes.{height_of, rows};
ghost use Rattle.progress_words.specs.Passes.{IsPassOf, Knows, view};
ghost use Rattle.flight_facts.specs.Facts.{flight_in};
ghost use Rattle.flight_facts.specs.Flights.{IsOfFlight};
ghost use Rattle.filter_words.specs.Regions.{LaysPlaces};
ghost use Rattle.filter_words.specs.Rows.{IsRowSeen, is_in_row};
ghost use Rattle.filter_words.specs.Units.{HasRoom, places_at};

use crate::unit_places::lay_unit_places;
use flight_facts::FlightFacts;
use hv_base::Line;
use plan_types::PicturePlan;
use progress_words::{Board, Pass};
use row_filters::RowPlaces;
use sample_words::Layout;

/// Lays the places of all coding tree units of the row that a line is of, which the pass has seen counted, in the row's
/// rows of places from one to before another.
pub fn lay_line_places(
    board: &Board<'_, FlightFacts>,
    pass: &mut Pass<FlightFacts>,
    layout: &Layout,
    plan: &PicturePlan,
    line: Line,
    first: u32,
    end: u32,
    around: &mut RowPlaces,
)
    requires own { IsPassOf board.now pass.old }
    requires flight { IsOfFlight board.now.flight layout.now }
    requires picture { slice_get (flight_in board.now.flight).pictures line.picture ≡ Some plan.now }
    requires row { line.row < rows layout.now }
    requires seen { IsRowSeen board.now.flight layout.now (view pass.old) line }
    requires rows { first ≤ end }
    requires inside { end ≤ height_of layout.now line.row / 4 }
    requires room { HasRoom around.old plan.now line.row }
    ensures places { LaysPlaces (is_in_row layout.now line.row first end) (places_at board.now.flight line)
        around.old around.new }
    ensures same { Knows pass.old pass.new (view pass.old) }
{
    let columns = layout.columns() as u32;
    for x in 0..columns {
        lay_unit_places(board, pass, layout, plan, line, x, first, end, around);
    }
}

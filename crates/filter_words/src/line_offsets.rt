//! The components of the coding tree units of a row.

ghost use Rattle.std.specs.Prelude.{◌≡◌, ◌<◌, ◌+◌, Some, slice_get};
ghost use Rattle.sample_words.specs.Sizes.{columns, rows};
ghost use Rattle.progress_words.specs.Passes.{IsPassOf, Knows, view};
ghost use Rattle.flight_facts.specs.Facts.{flight_in};
ghost use Rattle.flight_facts.specs.Flights.{IsOfFlight};
ghost use Rattle.filter_words.specs.Regions.{LaysUnits, is_inside};
ghost use Rattle.filter_words.specs.Rows.{IsRowSeen};
ghost use Rattle.filter_words.specs.Units.{HasRoom, filters_at};

use crate::unit_offsets::lay_unit_offsets;
use flight_facts::FlightFacts;
use hv_base::Line;
use plan_types::PicturePlan;
use progress_words::{Board, Pass};
use row_filters::RowPlaces;
use sample_words::Layout;

/// Lays the components of all coding tree units of the row that a line is of, which the pass has seen counted.
pub fn lay_line_offsets(
    board: &Board<'_, FlightFacts>,
    pass: &mut Pass<FlightFacts>,
    layout: &Layout,
    plan: &PicturePlan,
    line: Line,
    around: &mut RowPlaces,
)
    requires own { IsPassOf board.now pass.old }
    requires flight { IsOfFlight board.now.flight layout.now }
    requires picture { slice_get (flight_in board.now.flight).pictures line.picture ≡ Some plan.now }
    requires row { line.row < rows layout.now }
    requires seen { IsRowSeen board.now.flight layout.now (view pass.old) line }
    requires room { HasRoom around.old plan.now line.row }
    ensures units { LaysUnits (is_inside 0 (columns layout.now) line.row (line.row + 1))
        (filters_at board.now.flight line).units around.old around.new }
    ensures same { Knows pass.old pass.new (view pass.old) }
{
    let columns = layout.columns() as u32;
    for x in 0..columns {
        lay_unit_offsets(board, pass, layout, plan, line, x, around);
    }
}

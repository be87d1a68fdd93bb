//! The rows of places beside a row of coding tree blocks.

ghost use Rattle.std.specs.Prelude.{◌≡◌, ◌<◌, ◌≤◌, ◌+◌, ◌-◌, ◌&&◌, min, nat_lt, Some, slice_get};
ghost use Rattle.sample_words.specs.Sizes.{rows};
ghost use Rattle.progress_words.specs.Passes.{IsPassOf, Knows, view};
ghost use Rattle.flight_facts.specs.Facts.{flight_in};
ghost use Rattle.flight_facts.specs.Flights.{IsOfFlight};
ghost use Rattle.filter_words.specs.Regions.{LaysPlaces};
ghost use Rattle.filter_words.specs.Rows.{AreRowsSeen, is_just_above, is_just_below};
ghost use Rattle.filter_words.specs.Units.{HasRoom, places_at};

use crate::line_places::lay_line_places;
use flight_facts::FlightFacts;
use hv_base::Line;
use plan_types::PicturePlan;
use progress_words::{Board, Pass};
use row_filters::RowPlaces;
use sample_words::Layout;

/// Lays the lowest `beside` rows of places of the row above, if there is such a row.
pub(crate) fn lay_above(
    board: &Board<'_, FlightFacts>,
    pass: &mut Pass<FlightFacts>,
    layout: &Layout,
    plan: &PicturePlan,
    line: Line,
    beside: usize,
    around: &mut RowPlaces,
)
    requires own { IsPassOf board.now pass.old }
    requires flight { IsOfFlight board.now.flight layout.now }
    requires picture { slice_get (flight_in board.now.flight).pictures line.picture ≡ Some plan.now }
    requires row { line.row < rows layout.now }
    requires beside { beside ≤ 2 }
    requires seen { AreRowsSeen board.now.flight layout.now (view pass.old) line (min beside 1) }
    requires room { HasRoom around.old plan.now (line.row - 1) }
    ensures places { LaysPlaces (is_just_above layout.now line.row beside) (places_at board.now.flight line)
        around.old around.new }
    ensures same { Knows pass.old pass.new (view pass.old) }
{
    if has_above(line, beside) {
        let side = layout.ctb_size() as u32 / 4;
        let above = Line {
            phase: line.phase,
            picture: line.picture,
            row: line.row - 1,
        };
        let first = side - beside as u32;
        lay_line_places(board, pass, layout, plan, above, first, side, around);
    }
}

/// Whether the row above is asked for, and there is one.
fn has_above(line: Line, beside: usize) -> bool
    ensures { result ≡ (nat_lt 0 beside && nat_lt 0 line.row) }
{
    0 < beside && 0 < line.row
}

/// Lays the first `beside` rows of places of the row below, if there is such a row.
pub(crate) fn lay_below(
    board: &Board<'_, FlightFacts>,
    pass: &mut Pass<FlightFacts>,
    layout: &Layout,
    plan: &PicturePlan,
    line: Line,
    beside: usize,
    around: &mut RowPlaces,
)
    requires own { IsPassOf board.now pass.old }
    requires flight { IsOfFlight board.now.flight layout.now }
    requires picture { slice_get (flight_in board.now.flight).pictures line.picture ≡ Some plan.now }
    requires row { line.row < rows layout.now }
    requires beside { beside ≤ 2 }
    requires seen { AreRowsSeen board.now.flight layout.now (view pass.old) line (min beside 1) }
    requires room { HasRoom around.old plan.now (line.row + 1) }
    ensures places { LaysPlaces (is_just_below layout.now line.row beside) (places_at board.now.flight line)
        around.old around.new }
    ensures same { Knows pass.old pass.new (view pass.old) }
{
    if has_below(layout, line, beside) {
        let below = Line {
            phase: line.phase,
            picture: line.picture,
            row: line.row + 1,
        };
        lay_line_places(board, pass, layout, plan, below, 0, beside as u32, around);
    }
}

/// Whether the row below is asked for, and there is one.
fn has_below(layout: &Layout, line: Line, beside: usize) -> bool
    ensures value { result ≡ (nat_lt 0 beside && nat_lt (line.row + 1) (rows layout.now)) }
    ensures few { rows layout.now ≤ 512 }
{
    let rows = layout.rows();
    0 < beside && u64::from(line.row) + 1 < rows
}

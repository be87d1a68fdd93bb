//! The places that the filters of a row of coding tree blocks ask for.

ghost use Rattle.std.specs.Prelude.{◌≡◌, ◌<◌, ◌≤◌, ◌-◌, Some, min, slice_get};
ghost use Rattle.sample_words.specs.Sizes.{rows};
ghost use Rattle.spec_picture_filters.specs.Filtered.{filter_format};
ghost use Rattle.row_filters.specs.Around.{place_in};
ghost use Rattle.row_filters.specs.Known.{ArePlaces};
ghost use Rattle.progress_words.specs.Passes.{IsPassOf, Knows, view};
ghost use Rattle.flight_facts.specs.Facts.{flight_in};
ghost use Rattle.flight_facts.specs.Flights.{IsOfFlight};
ghost use Rattle.filter_words.specs.Rows.{AreRowsSeen};
ghost use Rattle.filter_words.specs.Units.{places_at};

use crate::line_places::lay_line_places;
use crate::rows_beside::{lay_above, lay_below};
use flight_facts::FlightFacts;
use hv_base::Line;
use plan_types::PicturePlan;
use progress_words::{Board, Pass};
use row_filters::RowPlaces;
use sample_words::Layout;

/// Takes the rows around the one that a line is of, and lays the places that its filters ask for: its own, and so many
/// rows of places on each side, the lowest ones of the row above and the first ones of the row below, where there are
/// such. The pass has seen all units of these rows counted.
pub fn lay_row_places(
    board: &Board<'_, FlightFacts>,
    pass: &mut Pass<FlightFacts>,
    layout: &Layout,
    plan: &PicturePlan,
    line: Line,
    beside: usize,
    around: &mut RowPlaces,
)
    requires own { IsPassOf board.now pass.old }
    requires flight { IsOfFlight board.now.flight layout.now }
    requires picture { slice_get (flight_in board.now.flight).pictures line.picture ≡ Some plan.now }
    requires row { line.row < rows layout.now }
    requires beside { beside ≤ 2 }
    requires seen { AreRowsSeen board.now.flight layout.now (view pass.old) line (min beside 1) }
    requires format { around.old.format ≡ filter_format plan.now }
    ensures format { around.new.format ≡ around.old.format }
    ensures above { around.new.above ≡ line.row - 1 }
    ensures places { ArePlaces (filter_format plan.now) line.row beside (places_at board.now.flight line)
        (place_in around.new) }
    ensures same { Knows pass.old pass.new (view pass.old) }
{
    let _few = layout.rows();
    let down = layout.height_of(u64::from(line.row)) as u32 / 4;
    around.begin(line.row as usize);
    lay_line_places(board, pass, layout, plan, line, 0, down, around);
    lay_above(board, pass, layout, plan, line, beside, around);
    lay_below(board, pass, layout, plan, line, beside, around);
}

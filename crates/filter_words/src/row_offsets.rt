//! What sample adaptive offset of a row of coding tree blocks asks for.

ghost use Rattle.std.specs.Prelude.{◌≡◌, ◌<◌, ◌+◌, ◌-◌, ℕ, Some, min, slice_get};
ghost use Rattle.sample_words.specs.Sizes.{columns, rows};
ghost use Rattle.spec_picture_filters.specs.Filtered.{filter_format};
ghost use Rattle.row_filters.specs.Around.{place_in, unit_in};
ghost use Rattle.row_filters.specs.Known.{AreUnits};
ghost use Rattle.progress_words.specs.Passes.{IsPassOf, Knows, view};
ghost use Rattle.flight_facts.specs.Facts.{flight_in};
ghost use Rattle.flight_facts.specs.Flights.{IsOfFlight};
ghost use Rattle.filter_words.specs.Regions.{LaysUnits, is_inside};
ghost use Rattle.filter_words.specs.Rows.{AreRowsSeen};
ghost use Rattle.filter_words.specs.Units.{filters_at};

use crate::line_offsets::lay_line_offsets;
use flight_facts::FlightFacts;
use hv_base::Line;
use plan_types::PicturePlan;
use progress_words::{Board, Pass};
use row_filters::RowPlaces;
use sample_words::Layout;

/// Takes the rows around the one that a line is of, and lays the components of its units, of those above and of those
/// below, where there are such, as its sample adaptive offset asks for them. The pass has seen all units of these rows
/// counted. What is known of the places of these rows stays.
pub fn lay_row_units(
    board: &Board<'_, FlightFacts>,
    pass: &mut Pass<FlightFacts>,
    layout: &Layout,
    plan: &PicturePlan,
    line: Line,
    around: &mut RowPlaces,
)
    requires own { IsPassOf board.now pass.old }
    requires flight { IsOfFlight board.now.flight layout.now }
    requires picture { slice_get (flight_in board.now.flight).pictures line.picture ≡ Some plan.now }
    requires row { line.row < rows layout.now }
    requires seen { AreRowsSeen board.now.flight layout.now (view pass.old) line 1 }
    requires format { around.old.format ≡ filter_format plan.now }
    ensures format { around.new.format ≡ around.old.format }
    ensures above { around.new.above ≡ line.row - 1 }
    ensures places { around.old.above ≡ line.row - 1
        → (x y : ℕ) → place_in around.new x y ≡ place_in around.old x y }
    ensures units { (c : ℕ) → c < 3 → AreUnits (filter_format plan.now) c line.row
        (filters_at board.now.flight line).units (unit_in around.new) }
    ensures same { Knows pass.old pass.new (view pass.old) }
{
    let _few = layout.rows();
    around.begin(line.row as usize);
    lay_three_rows(board, pass, layout, plan, line, around);
}

/// Lays the components of the units of a row and of those beside it, where there are such.
fn lay_three_rows(
    board: &Board<'_, FlightFacts>,
    pass: &mut Pass<FlightFacts>,
    layout: &Layout,
    plan: &PicturePlan,
    line: Line,
    around: &mut RowPlaces,
)
    requires own { IsPassOf board.now pass.old }
    requires flight { IsOfFlight board.now.flight layout.now }
    requires picture { slice_get (flight_in board.now.flight).pictures line.picture ≡ Some plan.now }
    requires row { line.row < rows layout.now }
    requires seen { AreRowsSeen board.now.flight layout.now (view pass.old) line 1 }
    requires format { around.old.format ≡ filter_format plan.now }
    requires above { around.old.above ≡ line.row - 1 }
    ensures units { LaysUnits (is_inside 0 (columns layout.now) (line.row - 1) (min (line.row + 2) (rows layout.now)))
        (filters_at board.now.flight line).units around.old around.new }
    ensures same { Knows pass.old pass.new (view pass.old) }
{
    let first = line.row.saturating_sub(1);
    let end = line.row.saturating_add(2).min(layout.rows() as u32);
    for row in first..end {
        let beside = Line {
            phase: line.phase,
            picture: line.picture,
            row,
        };
        lay_line_offsets(board, pass, layout, plan, beside, around);
    }
}

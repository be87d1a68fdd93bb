//! The places of a coding tree unit.

ghost use Rattle.std.specs.Prelude.{◌≡◌, ◌+◌, ◌<◌, ◌≤◌, length};
ghost use Rattle.line_words.specs.Places.{number_at};
ghost use Rattle.progress_words.specs.Passes.{IsPassOf, Knows, view};
ghost use Rattle.progress_words.specs.Views.{seen_of};
ghost use Rattle.filter_words.specs.Regions.{LaysPlaces};
ghost use Rattle.filter_words.specs.Units.{HasRoom, IsSoundUnit, across_of, down_of, is_in_unit, places_at, unit_at};

use crate::placed_unit::PlacedUnit;
use crate::segment_places::segment_places;
use crate::word_places::lay_words;
use flight_facts::FlightFacts;
use hv_base::Line;
use line_words::read_run;
use plan_types::PicturePlan;
use progress_words::{Board, Pass};
use row_filters::RowPlaces;
use sample_words::Layout;

/// Lays the places of a coding tree unit that the pass has seen counted, in the unit's rows of places from one to
/// before another. The unit is the one in a column of the row that a line is of, whichever phase the line has.
pub fn lay_unit_places(
    board: &Board<'_, FlightFacts>,
    pass: &mut Pass<FlightFacts>,
    layout: &Layout,
    plan: &PicturePlan,
    line: Line,
    unit: u32,
    first: u32,
    end: u32,
    around: &mut RowPlaces,
)
    requires own { IsPassOf board.now pass.old }
    requires unit { IsSoundUnit board.now.flight plan.now (unit_at layout.now line unit) }
    requires seen { unit < seen_of (view pass.old) (number_at (unit_at layout.now line unit)) }
    requires rows { first ≤ end }
    requires inside { end ≤ down_of (unit_at layout.now line unit) }
    requires room { HasRoom around.old plan.now line.row }
    ensures places { LaysPlaces (is_in_unit (unit_at layout.now line unit) first end)
        (places_at board.now.flight line) around.old around.new }
    ensures same { Knows pass.old pass.new (view pass.old) }
{
    let placed = PlacedUnit::new(layout, line, unit);
    lay_rows(board, pass, plan, &placed, first, end, around);
}

/// The same of a unit whose places are known to stand.
fn lay_rows(
    board: &Board<'_, FlightFacts>,
    pass: &mut Pass<FlightFacts>,
    plan: &PicturePlan,
    unit: &PlacedUnit,
    first: u32,
    end: u32,
    around: &mut RowPlaces,
)
    requires own { IsPassOf board.now pass.old }
    requires unit { IsSoundUnit board.now.flight plan.now unit.now }
    requires seen { unit.now.unit < seen_of (view pass.old) (number_at unit.now) }
    requires rows { first ≤ end }
    requires inside { end ≤ down_of unit.now }
    requires room { HasRoom around.old plan.now unit.now.line.row }
    ensures places { LaysPlaces (is_in_unit unit.now first end) (places_at board.now.flight unit.now.line)
        around.old around.new }
    ensures same { Knows pass.old pass.new (view pass.old) }
{
    for y in first..end {
        lay_row(board, pass, plan, unit, y, around);
    }
}

/// One row of places of a unit.
fn lay_row(
    board: &Board<'_, FlightFacts>,
    pass: &mut Pass<FlightFacts>,
    plan: &PicturePlan,
    unit: &PlacedUnit,
    y: u32,
    around: &mut RowPlaces,
)
    requires own { IsPassOf board.now pass.old }
    requires unit { IsSoundUnit board.now.flight plan.now unit.now }
    requires seen { unit.now.unit < seen_of (view pass.old) (number_at unit.now) }
    requires inside { y < down_of unit.now }
    requires room { HasRoom around.old plan.now unit.now.line.row }
    ensures places { LaysPlaces (is_in_unit unit.now y (y + 1)) (places_at board.now.flight unit.now.line)
        around.old around.new }
    ensures same { Knows pass.old pass.new (view pass.old) }
{
    let mut words = [0u64; 16];
    lay_read(
        board,
        pass,
        plan,
        unit,
        y,
        &mut words[..unit.across()],
        around,
    );
}

/// The same with room for the words of the row's modes.
fn lay_read(
    board: &Board<'_, FlightFacts>,
    pass: &mut Pass<FlightFacts>,
    plan: &PicturePlan,
    unit: &PlacedUnit,
    y: u32,
    words: &mut [u64],
    around: &mut RowPlaces,
)
    requires own { IsPassOf board.now pass.old }
    requires unit { IsSoundUnit board.now.flight plan.now unit.now }
    requires seen { unit.now.unit < seen_of (view pass.old) (number_at unit.now) }
    requires inside { y < down_of unit.now }
    requires words { length words.old ≡ across_of unit.now }
    requires some { 1 ≤ length words.old }
    requires room { HasRoom around.old plan.now unit.now.line.row }
    ensures places { LaysPlaces (is_in_unit unit.now y (y + 1)) (places_at board.now.flight unit.now.line)
        around.old around.new }
    ensures same { Knows pass.old pass.new (view pass.old) }
{
    read_run(board, pass, unit.at(), unit.row_modes(y), words);
    let segment = segment_places(plan, words[0]);
    let row = unit.row() + y as usize;
    lay_words(words, &segment, unit.column(), row, around);
}

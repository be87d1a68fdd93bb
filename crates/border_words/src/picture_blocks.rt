//! The motion beneath a coding tree unit, of a collocated picture of the flight, out of the words of its units.

ghost use Rattle.std.specs.Prelude.{◌≡◌, ◌≢◌, ℕ, ◌+◌, ◌*◌, ◌<◌, ◌≤◌, None, Some, slice_get, true};
ghost use Rattle.border_words.specs.Beneath.{HasColumn, IsUnitBlocks, motion_in_unit};
ghost use Rattle.sample_lines.specs.FactsOfFlights.{flight_in};
ghost use Rattle.sample_lines.specs.FactsOfFlights.{IsOfFlight};
ghost use Rattle.hv_base.specs.declared.line.Phase.TheVariants.{B};
ghost use Rattle.line_words.specs.Places.{number_at};
ghost use Rattle.progress_words.specs.Passes.{IsPassOf, Knows, view};
ghost use Rattle.progress_words.specs.Views.{seen_of};
ghost use Rattle.row_borders.specs.Borders.{block_beneath, with_beneath};
ghost use Rattle.row_borders.specs.Building.{IsBeneath};
ghost use Rattle.sample_words.specs.Sizes.{columns};
ghost use Rattle.sample_words.specs.Words.{IsLine, line_number};
ghost use Rattle.spec_flights.specs.Pictures.{folded_at};
ghost use Rattle.spec_flights.specs.Rows.{is_sound};
ghost use Rattle.spec_picture_trees.specs.Places.{unit_places};
ghost use Rattle.spec_picture_trees.specs.Shapes.{picture_shape};
ghost use Rattle.spec_slice_data.specs.Segment.{row_of};

use crate::kept_places::SegmentMotion;
use crate::laws::places_outside_have_no_motion;
use crate::reading::read_segment;
use crate::unit_blocks::{UnitBlocks, lay_block_column, lay_unit_blocks};
use hv_base::Line;
use line_words::UnitPlace;
use plan_types::PicturePlan;
use progress_words::{Board, Pass};
use row_borders::{Beside, RowBorder};
use sample_lines::FlightFacts;
use sample_words::Layout;

/// Lays the motion of a picture of the flight beneath a border's unit: of the unit at the same place, and of the one
/// behind it. All units of its row are sound, and the pass has seen them counted.
pub(crate) fn lay_picture(
    board: &Board<'_, FlightFacts>,
    pass: &mut Pass<FlightFacts>,
    layout: &Layout,
    plan: &PicturePlan,
    line: Line,
    border: &mut RowBorder,
)
    requires own { IsPassOf board.now pass.old }
    requires flight { IsOfFlight board.now.flight layout.now }
    requires line { IsLine layout.now line }
    requires phase { line.phase ≡ B }
    requires picture { slice_get (flight_in board.now.flight).pictures line.picture ≡ Some plan.now }
    requires seen { columns layout.now ≤ seen_of (view pass.old) (line_number layout.now line) }
    requires sound { (x : ℕ) → x < columns layout.now → is_sound (flight_in board.now.flight) line x ≡ true }
    requires side { unit_places border.old.unit.layout ≡ unit_places (picture_shape plan.now.sps plan.now.pps) }
    requires row { row_of border.old.unit.layout border.old.unit.address ≡ line.row }
    requires width { border.old.unit.layout.width ≡ columns layout.now }
    ensures beneath { IsBeneath border.new (folded_at (flight_in board.now.flight) line.picture).motions }
    ensures same { border.new ≡ with_beneath border.old border.new.beneath }
    ensures pass { Knows pass.old pass.new (view pass.old) }
{
    let unit = border.unit();
    let column = unit.layout.column(unit.address);
    let at = UnitPlace::new(layout, line, column);
    let blocks = UnitBlocks::new(layout, plan, &at);
    lay_unit_blocks(board, pass, &blocks, border);
    lay_next_column(board, pass, layout, plan, line, column + 1, border);
}

/// Lays that of the first column of the unit in a column of units, behind all columns of blocks of the unit before it;
/// none where the picture hasn't the unit.
fn lay_next_column(
    board: &Board<'_, FlightFacts>,
    pass: &mut Pass<FlightFacts>,
    layout: &Layout,
    plan: &PicturePlan,
    line: Line,
    next: u32,
    border: &mut RowBorder,
)
    requires own { IsPassOf board.now pass.old }
    requires flight { IsOfFlight board.now.flight layout.now }
    requires line { IsLine layout.now line }
    requires phase { line.phase ≡ B }
    requires picture { slice_get (flight_in board.now.flight).pictures line.picture ≡ Some plan.now }
    requires seen { columns layout.now ≤ seen_of (view pass.old) (line_number layout.now line) }
    requires sound { (x : ℕ) → x < columns layout.now → is_sound (flight_in board.now.flight) line x ≡ true }
    requires side { unit_places border.old.unit.layout ≡ unit_places (picture_shape plan.now.sps plan.now.pps) }
    ensures column { (column : ℕ) → 4 * column ≡ unit_places (picture_shape plan.now.sps plan.now.pps)
        → HasColumn border.new (unit_places (picture_shape plan.now.sps plan.now.pps)) column
        (λ row. (folded_at (flight_in board.now.flight) line.picture).motions
        (unit_places (picture_shape plan.now.sps plan.now.pps) * next)
        (unit_places (picture_shape plan.now.sps plan.now.pps) * line.row + 4 * row)) }
    ensures others { (c row : ℕ) → 4 * c < unit_places (picture_shape plan.now.sps plan.now.pps)
        → block_beneath border.new c row ≡ block_beneath border.old c row }
    ensures same { border.new ≡ with_beneath border.old border.new.beneath }
    ensures pass { Knows pass.old pass.new (view pass.old) }
{
    places_outside_have_no_motion();
    let here = border.unit();
    let side = here.layout.side();
    let column = (side + 3) / 4;
    let columns = layout.columns();
    let next_column = u64::from(next);
    if next_column < columns {
        lay_unit_column(board, pass, layout, plan, line, next, column, border);
    } else {
        lay_no_column(column, border);
    }
}

/// Lays the motion of the first column of places of a unit in a column of blocks.
fn lay_unit_column(
    board: &Board<'_, FlightFacts>,
    pass: &mut Pass<FlightFacts>,
    layout: &Layout,
    plan: &PicturePlan,
    line: Line,
    unit: u32,
    column: usize,
    border: &mut RowBorder,
)
    requires own { IsPassOf board.now pass.old }
    requires flight { IsOfFlight board.now.flight layout.now }
    requires line { IsLine layout.now line }
    requires phase { line.phase ≡ B }
    requires picture { slice_get (flight_in board.now.flight).pictures line.picture ≡ Some plan.now }
    requires seen { columns layout.now ≤ seen_of (view pass.old) (line_number layout.now line) }
    requires sound { (x : ℕ) → x < columns layout.now → is_sound (flight_in board.now.flight) line x ≡ true }
    requires unit { unit < columns layout.now }
    requires column { column < 5 }
    ensures column { HasColumn border.new (unit_places (picture_shape plan.now.sps plan.now.pps)) column
        (λ row. (folded_at (flight_in board.now.flight) line.picture).motions
        (unit_places (picture_shape plan.now.sps plan.now.pps) * unit)
        (unit_places (picture_shape plan.now.sps plan.now.pps) * line.row + 4 * row)) }
    ensures others { (c row : ℕ) → c ≢ column → block_beneath border.new c row ≡ block_beneath border.old c row }
    ensures same { border.new ≡ with_beneath border.old border.new.beneath }
    ensures pass { Knows pass.old pass.new (view pass.old) }
{
    let at = UnitPlace::new(layout, line, unit);
    let blocks = UnitBlocks::new(layout, plan, &at);
    lay_first_column(board, pass, &blocks, column, border);
}

/// The same of a unit with its words.
fn lay_first_column(
    board: &Board<'_, FlightFacts>,
    pass: &mut Pass<FlightFacts>,
    blocks: &UnitBlocks<'_>,
    column: usize,
    border: &mut RowBorder,
)
    requires own { IsPassOf board.now pass.old }
    requires blocks { IsUnitBlocks board.now.flight blocks.now }
    requires seen { blocks.now.at.now.unit < seen_of (view pass.old) (number_at blocks.now.at.now) }
    requires column { column < 5 }
    ensures column { HasColumn border.new (unit_places blocks.now.unit.layout) column
        (λ row. motion_in_unit board.now.flight blocks.now 0 (4 * row)) }
    ensures others { (c row : ℕ) → c ≢ column → block_beneath border.new c row ≡ block_beneath border.old c row }
    ensures same { border.new ≡ with_beneath border.old border.new.beneath }
    ensures pass { Knows pass.old pass.new (view pass.old) }
{
    let number = read_segment(board, pass, blocks.at, &blocks.words);
    let mut segment = SegmentMotion::new(&blocks.unit, blocks.plan, number);
    let _side = blocks.unit.layout.side();
    lay_block_column(board, pass, blocks, &mut segment, 0, column, border);
}

/// Lays no motion in a column of blocks.
fn lay_no_column(column: usize, border: &mut RowBorder)
    requires { column < 5 }
    ensures column { (row : ℕ) → row < 4 → block_beneath border.new column row ≡ None }
    ensures others { (c row : ℕ) → c ≢ column → block_beneath border.new c row ≡ block_beneath border.old c row }
    ensures same { border.new ≡ with_beneath border.old border.new.beneath }
{
    for row in 0..4 {
        border.lay_beneath(column, row, None);
    }
}

//! What stands above a row of coding tree units, laid unit by unit (6.4.1).

ghost use Rattle.std.specs.Prelude.{◌≡◌, ◌≢◌, ◌+◌, ◌-◌, ◌*◌, ◌%◌, ◌<◌, ℕ, true, min};
ghost use Rattle.header_types.specs.SequenceParameterSets.{height_in_ctbs, width_in_ctbs};
ghost use Rattle.hv_base.specs.declared.line.Phase.TheVariants.{B};
ghost use Rattle.board_core.specs.Needs.{read_needs};
ghost use Rattle.board_core.specs.Places.{line_of};
ghost use Rattle.sample_words.specs.Sizes.{columns};
ghost use Rattle.sample_words.specs.Words.{IsLine, line_number};
ghost use Rattle.spec_picture_trees.specs.Places.{unit_places};
ghost use Rattle.spec_flights.specs.Rows.{flight_rows, is_sound};
ghost use Rattle.border_words.specs.RowBorders.{IsLaid};
ghost use Rattle.progress_words.specs.Passes.{IsPassOf, Knows, view};
ghost use Rattle.progress_words.specs.Views.{seen_of};
ghost use Rattle.border_words.specs.FlightFacts.{flight_in};
ghost use Rattle.done_units.specs.FlightWaits.{AreSeen};
ghost use Rattle.border_words.specs.Units.{IsAboveOf};
ghost use Rattle.built_rows.specs.Above.{LaysAbove};
ghost use Rattle.row_waits.specs.Pictures.{IsPictureOf};
ghost use Rattle.built_rows.specs.Stages.{StandsAt, above_of, shape_of, units_in};

use crate::row_builder::RowBuilder;
use border_words::{FlightFacts, lay_above};
use hv_base::{Line, Phase};
use line_words::UnitPlace;
use progress_words::{Board, Pass};
use row_waits::PictureView;

/// Lays what stands above the unit behind the next one of a row, and above the next one too where this is the row's
/// first: the pass has seen these units of the row above counted. Words that reading the units asks for are kept.
pub(crate) fn lay_next_above(
    board: &Board<'_, FlightFacts>,
    pass: &mut Pass<FlightFacts>,
    picture: &PictureView<'_>,
    at: &UnitPlace,
    builder: &mut RowBuilder<'_>,
)
    requires own { IsPassOf board.now pass.old }
    requires picture { IsPictureOf board.now.flight picture.now }
    requires stands { StandsAt board.now.flight picture.now at.now (view pass.old) builder.old }
    requires seen { AreSeen board.now.flight picture.now.layout.now (view pass.old)
        (read_needs (flight_rows (flight_in board.now.flight)) at.now.line at.now.unit) }
    ensures laid { IsLaid (shape_of picture.now) at.now.line.row builder.new.border.above
        (units_in board.now.flight picture.now)
        (unit_places (shape_of picture.now) * min (at.now.unit + 2) (width_in_ctbs picture.now.plan.now.sps)) }
    ensures here { 0 < at.now.line.row
        → IsAboveOf (flight_in board.now.flight) picture.now.place picture.now.plan.now (at.now.line.row - 1)
        at.now.unit (above_of builder.new at.now.unit) }
    ensures next { at.now.unit + 1 < width_in_ctbs picture.now.plan.now.sps → 0 < at.now.line.row
        → IsAboveOf (flight_in board.now.flight) picture.now.place picture.now.plan.now (at.now.line.row - 1)
        (at.now.unit + 1) (above_of builder.new (at.now.unit + 1)) }
    ensures same { LaysAbove builder.old builder.new }
    ensures pass { Knows pass.old pass.new (view pass.old) }
{
    let row = at.line().row;
    if row == 0 {
        return;
    }
    let x = at.unit();
    if x == 0 {
        lay_unit_above(board, pass, picture, row - 1, x, builder);
    }
    if u64::from(x) + 1 < picture.layout.columns() {
        lay_unit_above(board, pass, picture, row - 1, x + 1, builder);
    }
}

/// Lays what a sound unit leaves above the row below its own, and keeps the words that reading the unit below it asks
/// for.
fn lay_unit_above(
    board: &Board<'_, FlightFacts>,
    pass: &mut Pass<FlightFacts>,
    picture: &PictureView<'_>,
    row: u32,
    x: u32,
    builder: &mut RowBuilder<'_>,
)
    requires own { IsPassOf board.now pass.old }
    requires picture { IsPictureOf board.now.flight picture.now }
    requires line { IsLine picture.now.layout.now (line_of B picture.now.place row) }
    requires unit { x < columns picture.now.layout.now }
    requires below { row + 1 < height_in_ctbs picture.now.plan.now.sps }
    requires seen { x < seen_of (view pass.old) (line_number picture.now.layout.now (line_of B picture.now.place row)) }
    requires sound { is_sound (flight_in board.now.flight) (line_of B picture.now.place row) x ≡ true }
    requires border { builder.old.border.unit.layout ≡ shape_of picture.now }
    ensures laid { IsLaid (shape_of picture.now) (row + 1) builder.old.border.above
        (units_in board.now.flight picture.now) (unit_places (shape_of picture.now) * x)
        → IsLaid (shape_of picture.now) (row + 1) builder.new.border.above
        (units_in board.now.flight picture.now) (unit_places (shape_of picture.now) * (x + 1)) }
    ensures above { IsAboveOf (flight_in board.now.flight) picture.now.place picture.now.plan.now row x
        (above_of builder.new x) }
    ensures other { (y : ℕ) → y % 2 ≢ x % 2 → above_of builder.new y ≡ above_of builder.old y }
    ensures same { LaysAbove builder.old builder.new }
    ensures pass { Knows pass.old pass.new (view pass.old) }
{
    let line = Line {
        phase: Phase::B,
        picture: picture.place,
        row,
    };
    let above = UnitPlace::new(picture.layout, line, x);
    if x % 2 == 0 {
        let kept = &mut builder.even;
        lay_above(
            board,
            pass,
            picture.layout,
            picture.plan,
            &above,
            &mut builder.border,
            kept,
        );
    } else {
        let kept = &mut builder.odd;
        lay_above(
            board,
            pass,
            picture.layout,
            picture.plan,
            &above,
            &mut builder.border,
            kept,
        );
    }
}

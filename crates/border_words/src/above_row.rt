//! What a coding tree unit leaves above the row below it, out of its words.

ghost use Rattle.std.specs.Prelude.{◌≡◌, ◌+◌, ◌*◌, ◌<◌, Some, true, slice_get};
ghost use Rattle.border_words.specs.Units.{IsAboveOf};
ghost use Rattle.sample_lines.specs.FactsOfFlights.{flight_in};
ghost use Rattle.sample_lines.specs.FactsOfFlights.{IsOfFlight};
ghost use Rattle.header_types.specs.SequenceParameterSets.{height_in_ctbs};
ghost use Rattle.hv_base.specs.declared.line.Phase.TheVariants.{B};
ghost use Rattle.line_words.specs.Places.{number_at};
ghost use Rattle.progress_words.specs.Passes.{IsPassOf, Knows, view};
ghost use Rattle.progress_words.specs.Views.{seen_of};
ghost use Rattle.row_borders.specs.Borders.{with_above};
ghost use Rattle.row_borders.specs.Next.{IsLaid};
ghost use Rattle.spec_flights.specs.Pictures.{folded_at};
ghost use Rattle.spec_flights.specs.Rows.{is_sound};
ghost use Rattle.spec_picture_trees.specs.Places.{unit_places};
ghost use Rattle.spec_picture_trees.specs.Shapes.{picture_shape};

use crate::lowest_lines::lay_lines_above;
use crate::places_above::lay_places_above;
use crate::unit_above::UnitAbove;
use line_words::UnitPlace;
use plan_types::PicturePlan;
use progress_words::{Board, Pass};
use row_borders::RowBorder;
use sample_lines::FlightFacts;
use sample_words::Layout;

/// Lays what stands above the unit below another one, out of the words of that one, which the pass has seen counted:
/// its lowest line of samples of each component, and the motion and the coded flags of its lowest places of 4x4 luma
/// samples (6.4.1, 8.7.2.4). The words that reading the unit below asks for are kept. It takes no memory.
pub fn lay_above(
    board: &Board<'_, FlightFacts>,
    pass: &mut Pass<FlightFacts>,
    layout: &Layout,
    plan: &PicturePlan,
    at: &UnitPlace,
    border: &mut RowBorder,
    above: &mut UnitAbove,
)
    requires own { IsPassOf board.now pass.old }
    requires flight { IsOfFlight board.now.flight layout.now }
    requires place { at.now.sizes ≡ layout.now }
    requires phase { at.now.line.phase ≡ B }
    requires picture { slice_get (flight_in board.now.flight).pictures at.now.line.picture ≡ Some plan.now }
    requires seen { at.now.unit < seen_of (view pass.old) (number_at at.now) }
    requires sound { is_sound (flight_in board.now.flight) at.now.line at.now.unit ≡ true }
    requires below { at.now.line.row + 1 < height_in_ctbs plan.now.sps }
    requires border { border.old.unit.layout ≡ picture_shape plan.now.sps plan.now.pps }
    ensures laid { IsLaid (picture_shape plan.now.sps plan.now.pps) (at.now.line.row + 1) border.old.above
        (folded_at (flight_in board.now.flight) at.now.line.picture)
        (unit_places (picture_shape plan.now.sps plan.now.pps) * at.now.unit)
        → IsLaid (picture_shape plan.now.sps plan.now.pps) (at.now.line.row + 1) border.new.above
        (folded_at (flight_in board.now.flight) at.now.line.picture)
        (unit_places (picture_shape plan.now.sps plan.now.pps) * (at.now.unit + 1)) }
    ensures same { border.new ≡ with_above border.old border.new.above }
    ensures above { IsAboveOf (flight_in board.now.flight) at.now.line.picture plan.now at.now.line.row at.now.unit
        above.new }
    ensures pass { Knows pass.old pass.new (view pass.old) }
{
    let _line = at.line();
    lay_places_above(board, pass, layout, plan, at, border, above);
    lay_lines_above(board, pass, layout, plan, at, border);
}

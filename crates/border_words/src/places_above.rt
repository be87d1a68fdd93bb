//! The lowest places of a coding tree unit, out of its words.

ghost use Rattle.std.specs.Prelude.{◌≡◌, ℕ, ◌+◌, ◌-◌, ◌*◌, ◌<◌, length, slice_index};
ghost use Rattle.border_words.specs.Units.{ArePlaceWords, IsAboveOf, IsTreeUnit, address_at, word_in};
ghost use Rattle.sample_lines.specs.FactsOfFlights.{flight_in};
ghost use Rattle.sample_lines.specs.FactsOfFlights.{IsOfFlight};
ghost use Rattle.header_types.specs.SequenceParameterSets.{height_in_ctbs};
ghost use Rattle.hv_base.specs.declared.line.Phase.TheVariants.{B};
ghost use Rattle.line_words.specs.Places.{number_at};
ghost use Rattle.progress_words.specs.Passes.{IsPassOf, Knows, view};
ghost use Rattle.progress_words.specs.Views.{seen_of};
ghost use Rattle.row_borders.specs.Borders.{with_above};
ghost use Rattle.row_borders.specs.Next.{HasPlaces};
ghost use Rattle.row_borders.specs.Strips.{with_places};
ghost use Rattle.sample_words.specs.declared.unit_content.UnitContent.TheVariants.{Modes, Offsets, Vectors};
ghost use Rattle.spec_flights.specs.Pictures.{folded_at};
ghost use Rattle.spec_picture_trees.specs.Places.{unit_places};
ghost use Rattle.spec_picture_trees.specs.Shapes.{picture_shape};

use crate::laws::words_are_of_kept_places;
use crate::lowest_places::lay_places;
use crate::place_words::PlaceWords;
use crate::reading::{read_modes, read_offsets, read_vectors};
use crate::tree_units::unit_of;
use crate::unit_above::UnitAbove;
use line_words::UnitPlace;
use plan_types::PicturePlan;
use progress_words::{Board, Pass};
use row_borders::{Beside, RowBorder};
use sample_lines::FlightFacts;
use sample_words::Layout;

/// The words of the lowest places of a unit, and of its sample adaptive offset.
fn read_lowest(
    board: &Board<'_, FlightFacts>,
    pass: &mut Pass<FlightFacts>,
    at: &UnitPlace,
    words: &PlaceWords,
    vectors: &mut [u64; 16],
    above: &mut UnitAbove,
)
    requires own { IsPassOf board.now pass.old }
    requires flight { IsOfFlight board.now.flight at.now.sizes }
    requires seen { at.now.unit < seen_of (view pass.old) (number_at at.now) }
    requires phase { at.now.line.phase ≡ B }
    requires words { ArePlaceWords at.now words.now }
    requires some { 0 < words.now.rows }
    ensures count { above.new.count ≡ words.now.columns }
    ensures long { length above.new.modes ≡ 16 }
    ensures vectors { (i : ℕ) → i < words.now.columns → slice_index vectors.new i
        ≡ word_in (flight_in board.now.flight) at.now (Vectors i (words.now.rows - 1)) }
    ensures modes { (i : ℕ) → i < words.now.columns → slice_index above.new.modes i
        ≡ word_in (flight_in board.now.flight) at.now (Modes i (words.now.rows - 1)) }
    ensures offsets { (k : ℕ) → k < 2 → slice_index above.new.offsets k
        ≡ word_in (flight_in board.now.flight) at.now (Offsets k) }
    ensures pass { Knows pass.old pass.new (view pass.old) }
{
    let lowest = words.rows - 1;
    read_vectors(board, pass, at, words, lowest, vectors);
    read_modes(board, pass, at, words, lowest, &mut above.modes);
    read_offsets(board, pass, at, words, &mut above.offsets);
    above.count = words.columns;
}

/// Lays the motion and the coded flags of a unit's lowest places above the row below it, and keeps the words that
/// reading the unit below asks for.
pub(crate) fn lay_places_above(
    board: &Board<'_, FlightFacts>,
    pass: &mut Pass<FlightFacts>,
    layout: &Layout,
    plan: &PicturePlan,
    at: &UnitPlace,
    border: &mut RowBorder,
    above: &mut UnitAbove,
)
    requires own { IsPassOf board.now pass.old }
    requires unit { IsTreeUnit board.now.flight at.now plan.now }
    requires place { at.now.sizes ≡ layout.now }
    requires seen { at.now.unit < seen_of (view pass.old) (number_at at.now) }
    requires below { at.now.line.row + 1 < height_in_ctbs plan.now.sps }
    requires border { border.old.unit.layout ≡ picture_shape plan.now.sps plan.now.pps }
    ensures places { HasPlaces (picture_shape plan.now.sps plan.now.pps) (at.now.line.row + 1) border.old.above
        (folded_at (flight_in board.now.flight) at.now.line.picture)
        (unit_places (picture_shape plan.now.sps plan.now.pps) * at.now.unit)
        → HasPlaces (picture_shape plan.now.sps plan.now.pps) (at.now.line.row + 1) border.new.above
        (folded_at (flight_in board.now.flight) at.now.line.picture)
        (unit_places (picture_shape plan.now.sps plan.now.pps) * (at.now.unit + 1)) }
    ensures same { border.new
        ≡ with_above border.old (with_places border.old.above border.new.above.motion border.new.above.coded) }
    ensures above { IsAboveOf (flight_in board.now.flight) at.now.line.picture plan.now at.now.line.row at.now.unit
        above.new }
    ensures pass { Knows pass.old pass.new (view pass.old) }
{
    words_are_of_kept_places();
    let here = border.unit();
    let unit = unit_of(layout, at, here.layout);
    let words = PlaceWords::new(layout, at);
    let mut vectors = [0; 16];
    read_lowest(board, pass, at, &words, &mut vectors, above);
    let side = here.layout.side();
    let column = at.unit();
    let first = side * column as usize;
    lay_places(&unit, plan, first, &vectors, above, border);
}

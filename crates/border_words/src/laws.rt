//! What the words of coding tree units are of, in a flight.

ghost use Rattle.std.specs.Prelude.{◌≡◌, ℕ, ◌+◌, ◌*◌, ◌/◌, ◌<◌, ◌≤◌, None, Some, slice_get};
ghost use Rattle.border_words.specs.Kept.{AreOfPlace};
ghost use Rattle.border_words.specs.Units.{IsTreeUnit, address_at, column_at, row_at, word_in};
ghost use Rattle.sample_lines.specs.FactsOfFlights.{FlightFacts};
ghost use Rattle.sample_lines.specs.FactsOfFlights.{flight_in};
ghost use Rattle.sample_lines.specs.FactsOfFlights.{IsOfFlight};
ghost use Rattle.header_types.specs.SequenceParameterSets.{height_in_ctbs};
ghost use Rattle.line_words.specs.Places.{UnitAt};
ghost use Rattle.plan_types.specs.declared.picture_plan.PicturePlan.{PicturePlan};
ghost use Rattle.row_above_laws.specs.Above.{places_across};
ghost use Rattle.sample_words.specs.Sizes.{columns, height_of, width_of};
ghost use Rattle.sample_words.specs.declared.sizes.FlightSizes.{FlightSizes};
ghost use Rattle.sample_words.specs.declared.unit_content.UnitContent.TheVariants.{Modes, Vectors};
ghost use Rattle.spec_flights.specs.Pictures.{folded_at};
ghost use Rattle.spec_picture_trees.specs.Places.{unit_places};
ghost use Rattle.spec_picture_trees.specs.Shapes.{picture_shape};

use row_above_laws::{
    expected_words_are_of_their_places, references_come_back, words_above_are_of_their_units,
};
use sample_lines::pictures_have_the_sizes_of_their_flight;

/// The two words that a flight expects of a place of a sound coding tree unit are those of a place of which its picture
/// keeps what the picture's units make of it (`place`). A unit has as many places across as the picture has there
/// (`across`), and all down where another one is below it (`down`).
pub(crate) fn words_are_of_kept_places()
    ensures place { (facts : FlightFacts) (u : UnitAt) (p : PicturePlan) (i j : ℕ) → IsTreeUnit facts u p
        → i < width_of u.sizes u.unit / 4 → j < height_of u.sizes u.line.row / 4
        → AreOfPlace p (address_at p u)
        ((folded_at (flight_in facts) u.line.picture).motions (column_at p u i) (row_at p u j))
        ((folded_at (flight_in facts) u.line.picture).filters.coded (column_at p u i) (row_at p u j))
        (word_in (flight_in facts) u (Vectors i j)) (word_in (flight_in facts) u (Modes i j)) }
    ensures across { (facts : FlightFacts) (u : UnitAt) (p : PicturePlan) → IsTreeUnit facts u p
        → width_of u.sizes u.unit / 4 ≡ places_across (picture_shape p.sps p.pps) u.unit }
    ensures down { (facts : FlightFacts) (u : UnitAt) (p : PicturePlan) → IsTreeUnit facts u p
        → u.line.row + 1 < height_in_ctbs p.sps
        → height_of u.sizes u.line.row / 4 ≡ unit_places (picture_shape p.sps p.pps) }
{
    expected_words_are_of_their_places();
    words_above_are_of_their_units();
    references_come_back();
    pictures_have_the_sizes_of_their_flight();
}

/// A picture keeps no motion outside: behind the last place across of one of its units (`right`), below the last one
/// down (`below`), and in the columns of units that it hasn't (`beyond`).
pub(crate) fn places_outside_have_no_motion()
    ensures right { (facts : FlightFacts) (u : UnitAt) (p : PicturePlan) (i j : ℕ) → IsTreeUnit facts u p
        → i < unit_places (picture_shape p.sps p.pps) → width_of u.sizes u.unit / 4 ≤ i
        → (folded_at (flight_in facts) u.line.picture).motions (column_at p u i) (row_at p u j) ≡ None }
    ensures below { (facts : FlightFacts) (u : UnitAt) (p : PicturePlan) (i j : ℕ) → IsTreeUnit facts u p
        → j < unit_places (picture_shape p.sps p.pps) → height_of u.sizes u.line.row / 4 ≤ j
        → (folded_at (flight_in facts) u.line.picture).motions (column_at p u i) (row_at p u j) ≡ None }
    ensures beyond { (facts : FlightFacts) (s : FlightSizes) (k : ℕ) (p : PicturePlan) (x y : ℕ)
        → IsOfFlight facts s → slice_get (flight_in facts).pictures k ≡ Some p → columns s ≤ x
        → (folded_at (flight_in facts) k).motions (unit_places (picture_shape p.sps p.pps) * x) y ≡ None }
{
    pictures_have_the_sizes_of_their_flight();
}

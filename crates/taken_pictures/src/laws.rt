//! What the words of places tell, and what pictures hold.

ghost use Rattle.std.specs.Prelude.{◌≡◌, ℕ, ◌+◌, ◌/◌, ◌<◌, Some, slice_get};
ghost use Rattle.plan_types.specs.declared.picture_plan.PicturePlan.{PicturePlan};
ghost use Rattle.picture_buffer.specs.Motion.{FieldPlaces, HasPlaces, motions_of};
ghost use Rattle.picture_buffer.specs.Planes.{HasSides, PictureSamples, samples_of};
ghost use Rattle.hv_base.specs.declared.line.Phase.TheVariants.{S};
ghost use Rattle.sample_words.specs.declared.unit_content.UnitContent.TheVariants.{Modes, Vectors};
ghost use Rattle.sample_words.specs.declared.sizes.FlightSizes.{FlightSizes};
ghost use Rattle.sample_words.specs.Contents.{component_side};
ghost use Rattle.sample_words.specs.Sizes.{height_of, width_of};
ghost use Rattle.spec_flights.specs.Pictures.{folded_at, known_decoded, pictures_before};
ghost use Rattle.line_words.specs.Places.{UnitAt};
ghost use Rattle.sample_lines.specs.FactsOfFlights.{FlightFacts};
ghost use Rattle.sample_lines.specs.FactsOfFlights.{flight_in};
ghost use Rattle.sample_lines.specs.FactsOfFlights.{IsOfFlight, samples_at};
ghost use Rattle.taken_pictures.specs.Kept.{kept_by};
ghost use Rattle.taken_pictures.specs.Places.{IsTreeUnit, address_at, column_at, row_at, word_in};

use row_above_laws::{
    expected_words_are_of_their_places, references_come_back, values_fit_their_words,
};
use sample_lines::{
    decoded_samples_are_of_the_last_phase, pictures_have_the_sizes_of_their_flight,
};
use sample_words::motion_is_unpacked;

/// The two words that a flight expects of a place of a sound coding tree unit tell the motion that its picture keeps
/// there.
pub(crate) fn words_tell_the_motion_of_their_places()
    ensures { (facts : FlightFacts) (u : UnitAt) (p : PicturePlan) (i j : ℕ) → IsTreeUnit facts u p
        → i < width_of u.sizes u.unit / 4 → j < height_of u.sizes u.line.row / 4
        → kept_by p (address_at p u) (word_in (flight_in facts) u (Vectors i j))
        (word_in (flight_in facts) u (Modes i j))
        ≡ (folded_at (flight_in facts) u.line.picture).motions (column_at u + i) (row_at u + j) }
{
    expected_words_are_of_their_places();
    motion_is_unpacked();
    pictures_have_the_sizes_of_their_flight();
    references_come_back();
    values_fit_their_words();
}

/// Planes of a picture's size that hold its samples behind all loop filters hold those of the decoded picture that its
/// known units make.
pub(crate) fn planes_hold_their_samples()
    ensures { (facts : FlightFacts) (s : FlightSizes) (k : ℕ) (p : PicturePlan) (planes : PictureSamples)
        → IsOfFlight facts s → slice_get (flight_in facts).pictures k ≡ Some p → HasSides planes s.width s.height
        → ((c x y : ℕ) → c < 3 → x < component_side c s.width → y < component_side c s.height
        → samples_of planes c x y ≡ samples_at (flight_in facts) k S c x y)
        → (c x y : ℕ)
        → samples_of planes c x y ≡ (known_decoded (pictures_before (flight_in facts) k) p).samples c x y }
{
    decoded_samples_are_of_the_last_phase();
    pictures_have_the_sizes_of_their_flight();
}

/// A field of a picture's size that holds its motion holds that of the decoded picture that its known units make.
pub(crate) fn fields_hold_their_motion()
    ensures { (facts : FlightFacts) (s : FlightSizes) (k : ℕ) (p : PicturePlan) (field : FieldPlaces)
        → IsOfFlight facts s → slice_get (flight_in facts).pictures k ≡ Some p
        → HasPlaces field (s.width / 4) (s.height / 4)
        → ((x y : ℕ) → x < s.width / 4 → y < s.height / 4
        → motions_of field x y ≡ (folded_at (flight_in facts) k).motions x y)
        → (x y : ℕ) → motions_of field x y ≡ (known_decoded (pictures_before (flight_in facts) k) p).motions x y }
{
    pictures_have_the_sizes_of_their_flight();
}

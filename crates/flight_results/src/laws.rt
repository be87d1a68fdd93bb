//! What follows from the definitions.

ghost use Rattle.std.specs.Prelude.{◌≡◌, ℕ, List, Option, length};
ghost use Rattle.hv_base.specs.declared.refusal.Stop.{Stop};
ghost use Rattle.plan_types.specs.declared.picture_plan.PicturePlan.{PicturePlan};
ghost use Rattle.picture_buffer.specs.Pictures.{HeldPicture};
ghost use Rattle.spec_picture_build.specs.References.{DecodedPicture};
ghost use Rattle.board_core.specs.Runs.{IsLeastBad};
ghost use Rattle.progress_words.specs.Core.{fault_in};
ghost use Rattle.row_trees.specs.SpecFlights.{PlannedFlight};
ghost use Rattle.row_trees.specs.SpecFlights.{flight_rows};
ghost use Rattle.flight_facts.specs.FlightUnitLaws.{HaveSegments};
ghost use Rattle.flight_facts.specs.Boards.{flight_meaning, flight_of};
ghost use Rattle.flight_facts.specs.Held.{HoldsPictures};
ghost use Rattle.flight_results.specs.Decoding.{Decodes};
ghost use Rattle.flight_results.specs.Flights.{DecodesFlight, TellsLeast};
ghost use Rattle.flight_results.specs.Stopped.{AreHeld, StopsFlight, TellsStop};

/// The pictures that are decoded one after the other, each by the buffer that the former one leaves, are those of the
/// flight at their places (`places`), and the other way round (`order`).
pub fn flights_are_decoded_in_order()
    ensures places { (plan : List PicturePlan) (bases : List DecodedPicture) (pictures : List HeldPicture)
        (fault : Option Stop) → Decodes bases plan pictures fault
        → DecodesFlight (flight_of plan bases) pictures fault }
    ensures order { (plan : List PicturePlan) (bases : List DecodedPicture) (pictures : List HeldPicture)
        (fault : Option Stop) → DecodesFlight (flight_of plan bases) pictures fault
        → Decodes bases plan pictures fault }
{}

/// What stops a flight is its least bad unit; where no unit is bad, nothing does.
pub fn least_bad_units_are_told()
    ensures { (f : PlannedFlight) (pictures : List HeldPicture) (fault : Option Stop) (u : Option ℕ)
        → DecodesFlight f pictures fault → HaveSegments f → IsLeastBad (flight_rows f) u
        → TellsLeast f pictures fault u }
{}

/// The pictures before the place at which a flight stops are decoded where they are held.
pub fn held_pictures_are_decoded()
    ensures { (f : PlannedFlight) (pictures : List HeldPicture) (fault : Option Stop)
        → StopsFlight f (length pictures) fault → AreHeld f pictures → DecodesFlight f pictures fault }
{}

/// The fault word of a closed board tells where decoding stops.
pub fn closed_boards_tell_where_decoding_stops()
    ensures { (f : PlannedFlight) (words : List ℕ) → HoldsPictures f words
        → TellsStop f (fault_in (flight_meaning f) words) }
{}

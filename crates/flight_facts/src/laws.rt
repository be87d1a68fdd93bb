//! What follows from the definitions.

ghost use Rattle.std.specs.Prelude.{◌≡◌, ◌<◌, ℕ, List, Some, length, map, slice_get};
ghost use Rattle.plan_types.specs.declared.picture_plan.PicturePlan.{PicturePlan};
ghost use Rattle.picture_build.specs.SpecPictureBuild.{DecodedPicture};
ghost use Rattle.flight_unit_laws.specs.SpecDecoder.{BufferPicture, pictures_in};
ghost use Rattle.progress_words.specs.Core.{IsReached};
ghost use Rattle.progress_words.specs.Meanings.{IsLaid};
ghost use Rattle.sample_words.specs.declared.sizes.FlightSizes.{FlightSizes};
ghost use Rattle.sample_words.specs.declared.unit_word.UnitWord.{UnitWord};
ghost use Rattle.sample_words.specs.Contents.{expected_word};
ghost use Rattle.flight_unit_laws.specs.SpecFlights.{PlannedFlight, folded_at};
ghost use Rattle.flight_unit_laws.specs.SpecFlights.{expected, flight_sizes, values_in};
ghost use Rattle.flight_unit_laws.specs.Planned.{IsPlanned};
ghost use Rattle.line_words.specs.FlightLines.{IsOnBoard};
ghost use Rattle.line_words.specs.FlightLines.{IsClosed};
ghost use Rattle.line_words.specs.FlightLines.{ShowsState};
ghost use Rattle.line_words.specs.Places.{HasSizes};
ghost use Rattle.flight_facts.specs.declared.flight_facts.FlightFacts.{FlightFacts};
ghost use Rattle.flight_facts.specs.Boards.{as_base, board_flight, flight_meaning};
ghost use Rattle.flight_facts.specs.Facts.{flight_in};
ghost use Rattle.flight_facts.specs.Flights.{IsOfFlight};
ghost use Rattle.flight_facts.specs.Held.{HoldsPictures};

/// A flight as it is planned can be worked off on a board (`board`), which its words are laid out for (`laid`).
pub fn flights_lie_on_boards()
    ensures board { (f : PlannedFlight) → IsPlanned f → IsOnBoard (board_flight f) }
    ensures laid { (f : PlannedFlight) → IsPlanned f → IsLaid (flight_meaning f) }
{}

/// The words of its board show a state of the core of row scheduling, to which a list of events leads, each ready when
/// it was taken.
pub fn boards_show_the_flight()
    ensures { (f : PlannedFlight) → IsPlanned f → (words : List ℕ) → IsReached (flight_meaning f) words
        → ShowsState (board_flight f) words }
{}

/// The words of its board hold the flight when it is closed: where no unit is bad all pictures are decoded and each
/// word is as expected; else decoding stops at the unit of the fault word by its rule, and what stands before that is
/// as expected.
pub fn closed_boards_hold_the_pictures()
    ensures { (f : PlannedFlight) → IsPlanned f → (words : List ℕ) → IsClosed (flight_meaning f) words
        → HoldsPictures f words }
{}

/// What a flight is to its board depends on the decoded pictures of the buffer before it alone (`board`), as does what
/// its known units make of each of its pictures (`pictures`). Those that its bases stand for are the bases (`bases`).
pub fn flights_depend_on_decoded_pictures()
    ensures board { (pictures : List PicturePlan) (b c : List BufferPicture) → pictures_in b ≡ pictures_in c
        → board_flight (record { pictures = pictures; buffer = b })
        ≡ board_flight (record { pictures = pictures; buffer = c }) }
    ensures pictures { (pictures : List PicturePlan) (b c : List BufferPicture) (k : ℕ) → pictures_in b ≡ pictures_in c
        → folded_at (record { pictures = pictures; buffer = b }) k
        ≡ folded_at (record { pictures = pictures; buffer = c }) k }
    ensures bases { (bases : List DecodedPicture) → pictures_in (map as_base bases) ≡ bases }
{}

/// The sizes by which the words of a flight are laid out are those of its board (`board`), and of each of its pictures,
/// which are as many (`each`, `picture`). What a word of a unit is to hold is the value of its picture (`expected`).
pub fn pictures_have_the_sizes_of_their_flight()
    ensures board { (facts : FlightFacts) (s : FlightSizes) → IsOfFlight facts s
        → HasSizes (board_flight (flight_in facts)) s }
    ensures each { (facts : FlightFacts) (s : FlightSizes) (k : ℕ) → IsOfFlight facts s → k < s.pictures
        → (p : PicturePlan) × (slice_get (flight_in facts).pictures k ≡ Some p) }
    ensures picture { (facts : FlightFacts) (s : FlightSizes) (k : ℕ) (p : PicturePlan) → IsOfFlight facts s
        → slice_get (flight_in facts).pictures k ≡ Some p
        → s ≡ flight_sizes p.sps (length (flight_in facts).pictures) }
    ensures expected { (facts : FlightFacts) (s : FlightSizes) (p : PicturePlan) (u : UnitWord) → IsOfFlight facts s
        → slice_get (flight_in facts).pictures u.line.picture ≡ Some p
        → expected (flight_in facts) u
        ≡ expected_word s (λ k. values_in p (folded_at (flight_in facts) k)) u }
{}

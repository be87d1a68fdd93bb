//! What follows from the definitions.

ghost use Rattle.std.specs.Prelude.{ℕ, List};
ghost use Rattle.sample_words.specs.declared.sizes.FlightSizes.{FlightSizes};
ghost use Rattle.taken_pictures.specs.FlightFacts.{FlightFacts};
ghost use Rattle.taken_pictures.specs.FlightFacts.{flight_in};
ghost use Rattle.taken_pictures.specs.FlightFacts.{IsOfFlight};
ghost use Rattle.taken_pictures.specs.FlightFacts.{HoldsPictures};
ghost use Rattle.taken_flights.specs.Taken.{IsBroken, StopsInside};

/// Where a fault was found in a picture or before it, the fault word of the closed board isn't none: decoding stops at
/// its unit, in that picture or before it.
pub fn decoding_stops_where_taking_stops()
    ensures { (facts : FlightFacts) (s : FlightSizes) (words : List ℕ) (picture : ℕ) → IsOfFlight facts s
        → HoldsPictures (flight_in facts) words → IsBroken (flight_in facts) picture
        → StopsInside (flight_in facts) words picture }
{}

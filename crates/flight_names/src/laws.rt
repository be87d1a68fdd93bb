//! What follows from the definitions.

ghost use Rattle.std.specs.Prelude.{◌≡◌, ◌<◌, ℕ, [], length, slice_index_or};
ghost use Rattle.spec_flights.specs.Pictures.{PlannedFlight};
ghost use Rattle.spec_flights.specs.References.{names_before};
ghost use Rattle.flight_names.specs.Names.{all_names};

/// The names before each picture of a flight are those of its buffer.
pub fn names_are_of_the_flight()
    ensures { (f : PlannedFlight) (k : ℕ) → k < length f.pictures
        → slice_index_or (all_names f.pictures (length f.buffer)) k [] ≡ names_before f k }
{}

//! What stands for a flight of rows on a board.

use progress_words::Facts;

/// Facts of a flight of rows: what they mean to a board is what the flight does.
pub trait RowFacts: Facts {
    ghost use Rattle.std.specs.Prelude.{◌≡◌};
    ghost use Rattle.flight_lines.specs.Flights.{BoardFlight, meaning_of};

    /// The flight.
    ghost flight: { Self → BoardFlight };

    /// Its meaning.
    ghost meant: { (f : Self) → Self.meaning f ≡ meaning_of (flight f) };
}

//! A flight of pictures is one of rows.
use crate::flight_facts::FlightFacts;
use line_words::RowFacts;

impl RowFacts for FlightFacts {
    ghost use Rattle.std.specs.Prelude.{refl};
    ghost use Rattle.flight_facts.specs.Boards.{board_flight};
    ghost use Rattle.flight_facts.specs.Facts.{flight_in};

    ghost flight = { λ f. board_flight (flight_in f) };

    ghost meant = { λ f. refl };
}

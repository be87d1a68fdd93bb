//! What a flight means to a board.
use crate::flight_facts::FlightFacts;
use progress_words::Facts;

impl Facts for FlightFacts {
    ghost use Rattle.flight_facts.specs.Boards.{board_flight, flight_meaning};
    ghost use Rattle.flight_facts.specs.Facts.{flight_in};
    ghost use Rattle.flight_facts.specs.Lawful.{few_rules};
    ghost use Rattle.line_words.proofs.FlightLinesLemmas.{lawful};

    ghost meaning = { λ f. flight_meaning (flight_in f) };

    ghost lawful = { λ f. lawful (board_flight (flight_in f)) (few_rules (flight_in f)) };
}

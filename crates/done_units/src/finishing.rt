//! The end of a unit whose work is done: its words are written, and it is counted.

ghost use Rattle.std.specs.Prelude.{◌≡◌, ◌+◌};
ghost use Rattle.progress_words.specs.Passes.{IsPassOf, Knows, view};
ghost use Rattle.progress_words.specs.Rule.{IsNext};
ghost use Rattle.progress_words.specs.Views.{AllSound, counting, seen_of};
ghost use Rattle.line_words.specs.Passes.{writing_run};
ghost use Rattle.line_words.specs.Places.{number_at, words_at};
ghost use Rattle.flight_waits.specs.FactsOfFlights.{flight_meaning};
ghost use Rattle.flight_waits.specs.FactsOfFlights.{flight_in};
ghost use Rattle.flight_waits.specs.FactsOfFlights.{IsOfFlight};
ghost use Rattle.done_units.specs.Done.{IsDoneAt};

use crate::places::{write_modes, write_vectors};
use crate::samples::write_samples;
use crate::tail::{write_carried, write_contexts, write_offsets};
use flight_packing_laws::DoneUnit;
use flight_waits::FlightFacts;
use line_words::{UnitPlace, count_unit};
use progress_words::{Board, Pass};

/// Writes all words of a coding tree unit whose work is done, the next one of the line held, of which no word is
/// written.
pub fn write_unit(
    board: &Board<'_, FlightFacts>,
    pass: &mut Pass<FlightFacts>,
    at: &UnitPlace,
    done: &DoneUnit<'_, '_>,
)
    requires own { IsPassOf board.now pass.old }
    requires flight { IsOfFlight board.now.flight at.now.sizes }
    requires done { IsDoneAt (flight_in board.now.flight) at.now done.now }
    requires next { IsNext (flight_meaning (flight_in board.now.flight)) (view pass.old) (number_at at.now) }
    requires unit { seen_of (view pass.old) (number_at at.now) ≡ at.now.unit }
    requires written { (view pass.old).written ≡ 0 }
    ensures { Knows pass.old pass.new (writing_run (view pass.old) (words_at at.now)) }
{
    let vectors = write_samples(board, pass, at, done);
    let modes = write_vectors(board, pass, at, done, vectors);
    let offsets = write_modes(board, pass, at, done, modes);
    let contexts = write_offsets(board, pass, at, done, offsets);
    let carried = write_contexts(board, pass, at, done, contexts);
    write_carried(board, pass, at, done, carried);
}

/// Writes all words of a coding tree unit whose work is done, the next one of the line held, of which no word is
/// written, and counts it.
pub fn finish_unit(
    board: &Board<'_, FlightFacts>,
    pass: &mut Pass<FlightFacts>,
    at: &UnitPlace,
    done: &DoneUnit<'_, '_>,
)
    requires own { IsPassOf board.now pass.old }
    requires flight { IsOfFlight board.now.flight at.now.sizes }
    requires done { IsDoneAt (flight_in board.now.flight) at.now done.now }
    requires next { IsNext (flight_meaning (flight_in board.now.flight)) (view pass.old) (number_at at.now) }
    requires unit { seen_of (view pass.old) (number_at at.now) ≡ at.now.unit }
    requires written { (view pass.old).written ≡ 0 }
    ensures seen { Knows pass.old pass.new (counting (view pass.old) (number_at at.now) (at.now.unit + 1)) }
    ensures sound { AllSound (flight_meaning (flight_in board.now.flight)) (number_at at.now) (at.now.unit + 1) }
{
    write_unit(board, pass, at, done);
    count_unit(board, pass, at);
}

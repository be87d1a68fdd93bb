//! What a unit has behind its places: offsets, contexts, and what is carried on.

ghost use Rattle.std.specs.Prelude.{◌≡◌, ◌+◌, ◌*◌};
ghost use Rattle.sample_words.specs.Sizes.{carry_words, common_words, context_words, places, sample_words};
ghost use Rattle.flight_packing_laws.specs.UnitWords.{height, width};
ghost use Rattle.flight_waits.specs.FactsOfFlights.{flight_in};
ghost use Rattle.flight_waits.specs.FactsOfFlights.{IsOfFlight};
ghost use Rattle.done_units.specs.Done.{IsDoneAt};
ghost use Rattle.done_units.specs.Writing.{HasWritten, IsWriting};

use crate::writing::write_words;
use flight_packing_laws::DoneUnit;
use flight_waits::FlightFacts;
use line_words::UnitPlace;
use progress_words::{Board, Pass};

/// Writes its sample adaptive offset, and gives how many words are written then.
pub(crate) fn write_offsets(
    board: &Board<'_, FlightFacts>,
    pass: &mut Pass<FlightFacts>,
    at: &UnitPlace,
    done: &DoneUnit<'_, '_>,
    first: usize,
) -> usize
    requires flight { IsOfFlight board.now.flight at.now.sizes }
    requires done { IsDoneAt (flight_in board.now.flight) at.now done.now }
    requires writing { IsWriting board.now pass.old at.now first }
    requires first { first ≡ sample_words done.now.layout.now (width done.now) (height done.now)
        + 2 * places (width done.now) (height done.now) }
    ensures next { result ≡ common_words done.now.layout.now (width done.now) (height done.now) }
    ensures written { HasWritten board.now pass.old pass.new at.now result }
{
    let words = done.pack_offsets();
    write_words(board, pass, at, done, first, &words)
}

/// Writes the contexts behind it, where it is the second one of its row.
pub(crate) fn write_contexts(
    board: &Board<'_, FlightFacts>,
    pass: &mut Pass<FlightFacts>,
    at: &UnitPlace,
    done: &DoneUnit<'_, '_>,
    first: usize,
) -> usize
    requires flight { IsOfFlight board.now.flight at.now.sizes }
    requires done { IsDoneAt (flight_in board.now.flight) at.now done.now }
    requires writing { IsWriting board.now pass.old at.now first }
    requires first { first ≡ common_words done.now.layout.now (width done.now) (height done.now) }
    ensures next { result ≡ first + context_words done.now.column }
    ensures written { HasWritten board.now pass.old pass.new at.now result }
{
    let column = done.column;
    if column == 1 {
        let words = done.pack_contexts();
        write_words(board, pass, at, done, first, &words)
    } else {
        first
    }
}

/// Writes what it carries on, where it is the last one of its row.
pub(crate) fn write_carried(
    board: &Board<'_, FlightFacts>,
    pass: &mut Pass<FlightFacts>,
    at: &UnitPlace,
    done: &DoneUnit<'_, '_>,
    first: usize,
) -> usize
    requires flight { IsOfFlight board.now.flight at.now.sizes }
    requires done { IsDoneAt (flight_in board.now.flight) at.now done.now }
    requires writing { IsWriting board.now pass.old at.now first }
    requires first { first ≡ common_words done.now.layout.now (width done.now) (height done.now)
        + context_words done.now.column }
    ensures next { result ≡ first + carry_words done.now.layout.now done.now.column }
    ensures written { HasWritten board.now pass.old pass.new at.now result }
{
    let row_end = done.layout.columns();
    let behind = u64::from(done.column) + 1;
    if behind == row_end {
        let words = done.pack_carried();
        write_words(board, pass, at, done, first, &words)
    } else {
        first
    }
}

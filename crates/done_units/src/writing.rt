//! Words of a unit behind those that are written.

ghost use Rattle.std.specs.Prelude.{◌≡◌, ◌+◌, ◌≤◌, length};
ghost use Rattle.flight_waits.specs.FactsOfFlights.{flight_in};
ghost use Rattle.flight_waits.specs.FactsOfFlights.{IsOfFlight};
ghost use Rattle.done_units.specs.Done.{HaveWords, IsDoneAt, size_of};
ghost use Rattle.done_units.specs.Writing.{HasWritten, IsWriting};

use flight_packing_laws::DoneUnit;
use flight_waits::FlightFacts;
use line_words::{UnitPlace, write_run};
use progress_words::{Board, Pass};

/// Writes words of a unit behind those that are written, and gives how many are written then.
#[inline(always)]
pub(crate) fn write_words(
    board: &Board<'_, FlightFacts>,
    pass: &mut Pass<FlightFacts>,
    at: &UnitPlace,
    done: &DoneUnit<'_, '_>,
    first: usize,
    words: &[u64],
) -> usize
    requires flight { IsOfFlight board.now.flight at.now.sizes }
    requires done { IsDoneAt (flight_in board.now.flight) at.now done.now }
    requires writing { IsWriting board.now pass.old at.now first }
    requires inside { first + length words.now ≤ size_of done.now }
    requires value { HaveWords done.now first words.now }
    ensures next { result ≡ first + length words.now }
    ensures written { HasWritten board.now pass.old pass.new at.now result }
{
    write_run(board, pass, at, first, words);
    first + words.len()
}

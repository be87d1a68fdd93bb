//! The places of 4x4 luma samples of a unit.

ghost use Rattle.std.specs.Prelude.{◌≡◌, ◌+◌, ◌/◌, ◌<◌, ◌≤◌, length};
ghost use Rattle.sample_words.specs.Sizes.{places, sample_words};
ghost use Rattle.flight_packing_laws.specs.UnitWords.{height, width};
ghost use Rattle.flight_waits.specs.FactsOfFlights.{flight_in};
ghost use Rattle.flight_waits.specs.FactsOfFlights.{IsOfFlight};
ghost use Rattle.done_units.specs.Done.{IsDoneAt};
ghost use Rattle.done_units.specs.Writing.{HasWritten, IsWriting};

use crate::writing::write_words;
use flight_packing_laws::DoneUnit;
use flight_waits::FlightFacts;
use line_words::UnitPlace;
use progress_words::{Board, Pass};

/// Writes the vectors of its places, and gives how many words are written then.
pub(crate) fn write_vectors(
    board: &Board<'_, FlightFacts>,
    pass: &mut Pass<FlightFacts>,
    at: &UnitPlace,
    done: &DoneUnit<'_, '_>,
    first: usize,
) -> usize
    requires flight { IsOfFlight board.now.flight at.now.sizes }
    requires done { IsDoneAt (flight_in board.now.flight) at.now done.now }
    requires writing { IsWriting board.now pass.old at.now first }
    requires first { first ≡ sample_words done.now.layout.now (width done.now) (height done.now) }
    ensures next { result ≡ first + places (width done.now) (height done.now) }
    ensures written { HasWritten board.now pass.old pass.new at.now result }
{
    let count = places_across(done);
    let mut buffer = [0; 16];
    write_vectors_by_row(board, pass, at, done, first, &mut buffer[..count])
}

/// Writes them row by row, by way of as many words as a row has places.
fn write_vectors_by_row(
    board: &Board<'_, FlightFacts>,
    pass: &mut Pass<FlightFacts>,
    at: &UnitPlace,
    done: &DoneUnit<'_, '_>,
    first: usize,
    words: &mut [u64],
) -> usize
    requires flight { IsOfFlight board.now.flight at.now.sizes }
    requires done { IsDoneAt (flight_in board.now.flight) at.now done.now }
    requires writing { IsWriting board.now pass.old at.now first }
    requires first { first ≡ sample_words done.now.layout.now (width done.now) (height done.now) }
    requires words { length words.old ≡ width done.now / 4 }
    ensures next { result ≡ first + places (width done.now) (height done.now) }
    ensures written { HasWritten board.now pass.old pass.new at.now result }
{
    let rows = done.height() / 4;
    let mut next = first;
    for y in 0..rows {
        done.pack_vectors(y, words);
        next = write_words(board, pass, at, done, next, words);
    }
    next
}

/// Writes the modes of its places, and gives how many words are written then.
pub(crate) fn write_modes(
    board: &Board<'_, FlightFacts>,
    pass: &mut Pass<FlightFacts>,
    at: &UnitPlace,
    done: &DoneUnit<'_, '_>,
    first: usize,
) -> usize
    requires flight { IsOfFlight board.now.flight at.now.sizes }
    requires done { IsDoneAt (flight_in board.now.flight) at.now done.now }
    requires writing { IsWriting board.now pass.old at.now first }
    requires first { first ≡ sample_words done.now.layout.now (width done.now) (height done.now)
        + places (width done.now) (height done.now) }
    ensures next { result ≡ first + places (width done.now) (height done.now) }
    ensures written { HasWritten board.now pass.old pass.new at.now result }
{
    let count = places_across(done);
    let mut buffer = [0; 16];
    write_modes_by_row(board, pass, at, done, first, &mut buffer[..count])
}

/// Writes them row by row, by way of as many words as a row has places.
fn write_modes_by_row(
    board: &Board<'_, FlightFacts>,
    pass: &mut Pass<FlightFacts>,
    at: &UnitPlace,
    done: &DoneUnit<'_, '_>,
    first: usize,
    words: &mut [u64],
) -> usize
    requires flight { IsOfFlight board.now.flight at.now.sizes }
    requires done { IsDoneAt (flight_in board.now.flight) at.now done.now }
    requires writing { IsWriting board.now pass.old at.now first }
    requires first { first ≡ sample_words done.now.layout.now (width done.now) (height done.now)
        + places (width done.now) (height done.now) }
    requires words { length words.old ≡ width done.now / 4 }
    ensures next { result ≡ first + places (width done.now) (height done.now) }
    ensures written { HasWritten board.now pass.old pass.new at.now result }
{
    let mode_rows = done.height() / 4;
    let mut next = first;
    for y in 0..mode_rows {
        done.pack_modes(y, words);
        next = write_words(board, pass, at, done, next, words);
    }
    next
}

/// How many places a row of them has.
fn places_across(done: &DoneUnit<'_, '_>) -> usize
    requires { done.now.column < 512 }
    ensures value { result ≡ width done.now / 4 }
    ensures few { result ≤ 16 }
{
    (done.width() / 4) as usize
}

//! The samples of a unit.

ghost use Rattle.std.specs.Prelude.{◌≡◌, ◌+◌, ◌<◌, ◌≤◌, length};
ghost use Rattle.sample_words.specs.Contents.{component_side, component_words, components_before};
ghost use Rattle.sample_words.specs.Sizes.{line_words, sample_words};
ghost use Rattle.flight_packing_laws.specs.UnitWords.{height, width};
ghost use Rattle.flight_waits.specs.FactsOfFlights.{flight_in};
ghost use Rattle.flight_waits.specs.FactsOfFlights.{IsOfFlight};
ghost use Rattle.done_units.specs.Done.{IsDoneAt};
ghost use Rattle.done_units.specs.Writing.{HasWritten, IsWriting};

use crate::writing::write_words;
use flight_packing_laws::DoneUnit;
use flight_waits::FlightFacts;
use line_words::UnitPlace;
use progress_words::{Board, Pass};

/// Writes the lines of luma samples, of Cb and of Cr, and gives how many words are written then.
pub(crate) fn write_samples(
    board: &Board<'_, FlightFacts>,
    pass: &mut Pass<FlightFacts>,
    at: &UnitPlace,
    done: &DoneUnit<'_, '_>,
) -> usize
    requires flight { IsOfFlight board.now.flight at.now.sizes }
    requires done { IsDoneAt (flight_in board.now.flight) at.now done.now }
    requires writing { IsWriting board.now pass.old at.now 0 }
    ensures next { result ≡ sample_words done.now.layout.now (width done.now) (height done.now) }
    ensures written { HasWritten board.now pass.old pass.new at.now result }
{
    let cb = write_component(board, pass, at, done, 0, 0);
    let cr = write_component(board, pass, at, done, 1, cb);
    write_component(board, pass, at, done, 2, cr)
}

/// Writes the lines of samples of a component.
fn write_component(
    board: &Board<'_, FlightFacts>,
    pass: &mut Pass<FlightFacts>,
    at: &UnitPlace,
    done: &DoneUnit<'_, '_>,
    c: u8,
    first: usize,
) -> usize
    requires flight { IsOfFlight board.now.flight at.now.sizes }
    requires done { IsDoneAt (flight_in board.now.flight) at.now done.now }
    requires writing { IsWriting board.now pass.old at.now first }
    requires component { c < 3 }
    requires first { first ≡ components_before done.now.layout.now (width done.now) (height done.now) c }
    ensures next { result ≡ first + component_words done.now.layout.now (width done.now) (height done.now) c }
    ensures written { HasWritten board.now pass.old pass.new at.now result }
{
    let count = words_across(done, c);
    let mut buffer = [0; 16];
    write_lines(board, pass, at, done, c, first, &mut buffer[..count])
}

/// How many words a line of a component has.
fn words_across(done: &DoneUnit<'_, '_>, c: u8) -> usize
    requires { done.now.column < 512 }
    ensures value { result ≡ line_words done.now.layout.now (component_side c (width done.now)) }
    ensures few { result ≤ 16 }
{
    done.layout
        .line_words(u64::from(component_side(c, done.width()))) as usize
}

/// Writes the lines of samples of a component by way of as many words as a line has.
fn write_lines(
    board: &Board<'_, FlightFacts>,
    pass: &mut Pass<FlightFacts>,
    at: &UnitPlace,
    done: &DoneUnit<'_, '_>,
    c: u8,
    first: usize,
    words: &mut [u64],
) -> usize
    requires flight { IsOfFlight board.now.flight at.now.sizes }
    requires done { IsDoneAt (flight_in board.now.flight) at.now done.now }
    requires writing { IsWriting board.now pass.old at.now first }
    requires component { c < 3 }
    requires first { first ≡ components_before done.now.layout.now (width done.now) (height done.now) c }
    requires words { length words.old ≡ line_words done.now.layout.now (component_side c (width done.now)) }
    ensures next { result ≡ first + component_words done.now.layout.now (width done.now) (height done.now) c }
    ensures written { HasWritten board.now pass.old pass.new at.now result }
{
    let lines = component_side(c, done.height());
    let mut next = first;
    for line in 0..lines {
        done.pack_samples(c, line, words);
        next = write_words(board, pass, at, done, next, words);
    }
    next
}

/// A component's side, by that of luma.
#[inline(always)]
fn component_side(c: u8, side: u32) -> u32
    ensures value { result ≡ component_side c side }
    ensures few { result ≤ side }
{
    if c == 0 { side } else { side / 2 }
}

//! Samples of a line out of the words of their unit.

ghost use Rattle.std.specs.Prelude.{ℕ, ◌≡◌, ◌+◌, ◌*◌, ◌<◌, ◌≤◌, length, slice_index, true};
ghost use Rattle.sample_words.specs.Sizes.{samples_a_word};
ghost use Rattle.sample_words.specs.Words.{has_words};
ghost use Rattle.progress_words.specs.Passes.{IsPassOf, Knows, view};
ghost use Rattle.progress_words.specs.Views.{seen_of};
ghost use Rattle.line_words.specs.Places.{number_at};
ghost use Rattle.flight_facts.specs.Facts.{flight_in};
ghost use Rattle.flight_facts.specs.Flights.{IsOfFlight};
ghost use Rattle.sample_lines.specs.Lines.{height_at, sample_of, width_at};

use crate::shapes::sample_index;
use crate::words::read_words;
use flight_facts::FlightFacts;
use line_words::UnitPlace;
use progress_words::{Board, Pass};
use sample_words::Layout;

/// Samples of a line of a component of a unit that the pass has seen counted, from the first sample of a word of the
/// line on: of a coding tree unit as it is built, or of a row behind all loop filters. Words have four samples in a
/// flight of more than 8 bits a sample, else eight.
pub fn read_samples(
    board: &Board<'_, FlightFacts>,
    pass: &mut Pass<FlightFacts>,
    layout: &Layout,
    at: &UnitPlace,
    c: usize,
    line: usize,
    word: usize,
    out: &mut [u16],
)
    requires own { IsPassOf board.now pass.old }
    requires flight { IsOfFlight board.now.flight layout.now }
    requires place { at.now.sizes ≡ layout.now }
    requires words { has_words at.now.line.phase ≡ true }
    requires seen { at.now.unit < seen_of (view pass.old) (number_at at.now) }
    requires component { c < 3 }
    requires line { line < height_at at.now c }
    requires inside { samples_a_word layout.now * word + length out.old ≤ width_at at.now c }
    ensures count { length out.new ≡ length out.old }
    ensures value { (i : ℕ) → i < length out.old → slice_index out.new i
        ≡ sample_of (flight_in board.now.flight) at.now c (samples_a_word layout.now * word + i) line }
    ensures same { Knows pass.old pass.new (view pass.old) }
{
    if out.is_empty() {
        return;
    }
    let first = sample_index(layout, at, c, line, word);
    read_words(board, pass, layout, at, first, out);
}

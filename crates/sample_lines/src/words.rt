//! Samples out of words of a unit that follow one another.

ghost use Rattle.std.specs.Prelude.{ℕ, ◌≡◌, ◌+◌, ◌*◌, ◌/◌, ◌%◌, ◌<◌, ◌≤◌, length, slice_index};
ghost use Rattle.sample_words.specs.Packing.{lane};
ghost use Rattle.sample_words.specs.Sizes.{line_words, samples_a_word};
ghost use Rattle.sample_words.specs.Values.{sample_bits};
ghost use Rattle.flight_facts.specs.SpecFlights.{expected};
ghost use Rattle.progress_words.specs.Passes.{IsPassOf, Knows, view};
ghost use Rattle.progress_words.specs.Views.{seen_of};
ghost use Rattle.line_words.specs.Places.{IsUnit, number_at, word_at, words_at};
ghost use Rattle.flight_facts.specs.Facts.{flight_in};
ghost use Rattle.flight_facts.specs.Flights.{IsOfFlight};

use flight_facts::FlightFacts;
use line_words::{UnitPlace, read_run};
use progress_words::{Board, Pass};
use sample_words::Layout;
use unit_words::unpack_line;

/// Samples of words of a unit, from the first sample of one of them on.
#[tactic(auto, unfolding(sample_words::specs::Sizes::line_words))]
pub(crate) fn read_words(
    board: &Board<'_, FlightFacts>,
    pass: &mut Pass<FlightFacts>,
    layout: &Layout,
    at: &UnitPlace,
    first: usize,
    out: &mut [u16],
)
    requires own { IsPassOf board.now pass.old }
    requires flight { IsOfFlight board.now.flight layout.now }
    requires shape { IsUnit at.now }
    requires place { at.now.sizes ≡ layout.now }
    requires seen { at.now.unit < seen_of (view pass.old) (number_at at.now) }
    requires inside { first + line_words layout.now (length out.old) ≤ words_at at.now }
    requires few { length out.old ≤ 8192 }
    ensures count { length out.new ≡ length out.old }
    ensures value { (i : ℕ) → i < length out.old → slice_index out.new i
        ≡ lane (sample_bits layout.now) (expected (flight_in board.now.flight)
        (word_at at.now (first + i / samples_a_word layout.now))) (i % samples_a_word layout.now) }
    ensures same { Knows pass.old pass.new (view pass.old) }
{
    let run = 16 * layout.samples_a_word() as usize;
    let runs = (out.len() + (run - 1)) / run;
    for k in 0..runs {
        let from = run * k;
        let end = out.len().min(from + run);
        read_few(board, pass, layout, at, first + 16 * k, &mut out[from..end]);
    }
}

/// The same of at most sixteen words.
#[tactic(auto, unfolding(sample_words::specs::Sizes::line_words))]
fn read_few(
    board: &Board<'_, FlightFacts>,
    pass: &mut Pass<FlightFacts>,
    layout: &Layout,
    at: &UnitPlace,
    first: usize,
    out: &mut [u16],
)
    requires own { IsPassOf board.now pass.old }
    requires flight { IsOfFlight board.now.flight layout.now }
    requires place { at.now.sizes ≡ layout.now }
    requires seen { at.now.unit < seen_of (view pass.old) (number_at at.now) }
    requires inside { first + line_words layout.now (length out.old) ≤ words_at at.now }
    requires few { length out.old ≤ 16 * samples_a_word layout.now }
    ensures count { length out.new ≡ length out.old }
    ensures value { (i : ℕ) → i < length out.old → slice_index out.new i
        ≡ lane (sample_bits layout.now) (expected (flight_in board.now.flight)
        (word_at at.now (first + i / samples_a_word layout.now))) (i % samples_a_word layout.now) }
    ensures same { Knows pass.old pass.new (view pass.old) }
{
    let mut words = [0; 16];
    let count = layout.line_words(out.len() as u64) as usize;
    read_into(board, pass, layout, at, first, &mut words[..count], out);
}

/// The same by room for the words.
#[inline(always)]
fn read_into(
    board: &Board<'_, FlightFacts>,
    pass: &mut Pass<FlightFacts>,
    layout: &Layout,
    at: &UnitPlace,
    first: usize,
    words: &mut [u64],
    out: &mut [u16],
)
    requires own { IsPassOf board.now pass.old }
    requires flight { IsOfFlight board.now.flight layout.now }
    requires place { at.now.sizes ≡ layout.now }
    requires seen { at.now.unit < seen_of (view pass.old) (number_at at.now) }
    requires inside { first + length words.old ≤ words_at at.now }
    requires room { length out.old ≤ samples_a_word layout.now * length words.old }
    ensures count { length out.new ≡ length out.old }
    ensures value { (i : ℕ) → i < length out.old → slice_index out.new i
        ≡ lane (sample_bits layout.now) (expected (flight_in board.now.flight)
        (word_at at.now (first + i / samples_a_word layout.now))) (i % samples_a_word layout.now) }
    ensures same { Knows pass.old pass.new (view pass.old) }
{
    read_run(board, pass, at, first, words);
    unpack_line(layout, words, out);
}
